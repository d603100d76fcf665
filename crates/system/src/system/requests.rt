// Reads and writes become commands of a node.
ghost use Rattle.protocol.specs.Moments.{read, write, at, accepted, wrote};
ghost use Rattle.system.specs.Systems.{asked, answered};
ghost use Rattle.system.specs.Through.{Called};

use super::System;
use crate::fault::SystemFault;
use lines::{Continuation, Read};
use network::Network;

impl<N: Network> System<N> {
    // Asks at a node for the word of an address. Answers the place that keeps the read.
    pub fn read(
        &mut self,
        node: u64,
        address: u64,
        continuation: Continuation,
    ) -> Result<usize, SystemFault>
        ensures { Called N.Network self.old (read node (asked address continuation.frame continuation.instruction)) (answered (read node (asked address continuation.frame continuation.instruction)) (λ place. at node (accepted (asked address continuation.frame continuation.instruction) place)) result) self.new }
    {
        let (at, address) = self.check_address(node, address)?;
        let read = Read {
            address,
            continuation,
        };
        let boards = &mut self.boards;
        boards[at.index()]
            .read(read)
            .map_err(|_| SystemFault::PlacesTaken(node))
    }

    // Gives at a node a word to an address.
    pub fn write(&mut self, node: u64, address: u64, word: u64) -> Result<(), SystemFault>
        ensures { Called N.Network self.old (write node address word) (answered (write node address word) (λ _. at node (wrote address word)) result) self.new }
    {
        let (at, address) = self.check_address(node, address)?;
        let boards = &mut self.boards;
        boards[at.index()]
            .write(address, word)
            .map_err(|_| SystemFault::WritesHeld(node))
    }
}
