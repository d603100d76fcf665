// A node acts on one of its commands.
ghost use Rattle.std.specs.Prelude.{◌≡◌, ◌≤◌};
ghost use Rattle.std.specs.Option.{option_map, option_to_list};
ghost use Rattle.network.specs.Messages.{plain};
ghost use Rattle.lines.specs.Plain.{plain_outgoing};
ghost use Rattle.protocol.specs.Moments.{act, at, acted, home_of};
ghost use Rattle.protocol.specs.Steps.{goes_out};
ghost use Rattle.system.specs.Faults.{whole_fault};
ghost use Rattle.system.specs.Systems.{moment, answered};
ghost use Rattle.system.specs.Through.{Called};

use super::System;
use super::offers::offer_all;
use crate::fault::SystemFault;
use lines::{ActFault, Outgoing, Traffic};
use network::{Address, Message, Network, Node};

// A board's fault, with the number of its node, for which a From has no room.
fn whole_fault(node: u64, fault: ActFault) -> SystemFault
    ensures { result ≡ whole_fault node fault }
{
    match fault {
        ActFault::NoSuchCommand => SystemFault::NoSuchCommand(node),
        ActFault::NetworkFull(address) => SystemFault::NetworkFull(node, address),
        ActFault::Lines(fault) => fault.into(),
    }
}

impl<N: Network> System<N> {
    fn home_of(&self, address: Address) -> Node
        requires { 1 ≤ self.now.cells }
        ensures { result.index ≡ home_of (moment N.Network self.now) address.index }
    {
        Node::new((address.index() / self.cells % 16) as u64).unwrap()
    }

    // The message that goes out from a node to the home of its address.
    fn message(&self, node: Node, outgoing: Option<Outgoing>) -> Option<Message>
        requires { 1 ≤ self.now.cells }
        ensures { option_to_list (option_map plain result) ≡ goes_out (moment N.Network self.now) node.index (option_map plain_outgoing outgoing) }
    {
        match outgoing? {
            Outgoing::Read(address) => Some(Message::read(self.home_of(address), address, node)),
            Outgoing::Write(address, word) => {
                Some(Message::write(self.home_of(address), address, node, word))
            }
        }
    }

    // Acts on command number `pick` of a node, the oldest being 0. Answers how many reads became ready.
    pub fn act(&mut self, node: u64, pick: u64) -> Result<usize, SystemFault>
        ensures { Called N.Network self.old (act node pick) (answered (act node pick) (λ count. at node (acted pick count)) result) self.new }
    {
        let me = self.check_node(node)?;
        let traffic = Traffic {
            load: self.network.count() + self.memory.waiting(),
            limit: self.network.limit(),
        };
        let boards = &mut self.boards;
        let done = boards[me.index()]
            .act(me, pick as usize, traffic)
            .map_err(|fault| whole_fault(node, fault))?;
        let message = self.message(me, done.sends);
        offer_all(&mut self.network, message.into_iter());
        Ok(done.readied)
    }
}
