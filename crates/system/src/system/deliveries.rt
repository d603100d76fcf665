// Messages arrive: at the home of their address, or at the board that asked.
ghost use Rattle.protocol.specs.Moments.{deliver, delivered};
ghost use Rattle.system.specs.Systems.{answered};
ghost use Rattle.system.specs.Through.{Called};

use super::System;
use super::offers::offer_all;
use crate::fault::SystemFault;
use network::{Kind, Network};

impl<N: Network> System<N> {
    // Delivers one message, whichever the network gives at this pick. Answers how many reads became ready.
    pub fn deliver(&mut self, pick: u64) -> Result<usize, SystemFault>
        ensures { Called N.Network self.old (deliver pick) (answered (deliver pick) (λ count. delivered pick count) result) self.new }
    {
        self.check_started()?;
        let message = self
            .network
            .take(pick)
            .ok_or(SystemFault::NothingInTransit)?;
        match message.kind() {
            Kind::Reply => {
                let boards = &mut self.boards;
                Ok(boards[message.to().index()].reply(message.address(), message.word()))
            }
            Kind::Read | Kind::Write => {
                let replies = self.memory.receive(message)?;
                offer_all(&mut self.network, replies);
                Ok(0)
            }
        }
    }
}
