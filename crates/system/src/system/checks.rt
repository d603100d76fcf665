// The grounds that several calls share. A call's numbers (node and address, node and place, kind and length) stand
// one by one, since each is refused by itself.
ghost use Rattle.std.specs.Prelude.{◌≡◌, ◌≤◌, IfOk, OnErr, OnOk};
ghost use Rattle.protocol.specs.Moments.{Call};
ghost use Rattle.protocol.specs.Steps.{Outcome, once_started, at_node, at_address};
ghost use Rattle.system.specs.Systems.{moment, Checked};

use super::System;
use crate::fault::SystemFault;
use network::{Address, Network, Node};

impl<N: Network> System<N> {
    // Whether a call may go on at all.
    pub(super) fn check_started(&self) -> Result<(), SystemFault>
        ensures rule { (c : Call) (o : Outcome) → Checked (moment N.Network self.now) c result o (once_started (moment N.Network self.now) c o) }
        ensures within { OnOk result (1 ≤ self.now.nodes) }
        ensures early { OnErr result (self.now.nodes ≡ 0) }
    {
        if self.nodes == 0 {
            return Err(SystemFault::NotStarted);
        }
        Ok(())
    }

    // The node of a number, if a call may go on there.
    pub(super) fn check_node(&self, node: u64) -> Result<Node, SystemFault>
        ensures rule { (c : Call) (o : Outcome) → Checked (moment N.Network self.now) c result o (at_node (moment N.Network self.now) c node o) }
        ensures within { IfOk result (λ at. (at.index ≡ node) × (1 ≤ self.now.nodes)) }
    {
        self.check_started()?;
        Node::new(node)
            .filter(|at| at.index() < self.nodes)
            .ok_or(SystemFault::NoSuchNode(node))
    }

    // The node and the address of two numbers, if a call may go on with them.
    pub(super) fn check_address(
        &self,
        node: u64,
        address: u64,
    ) -> Result<(Node, Address), SystemFault>
        ensures rule { (c : Call) (o : Outcome) → Checked (moment N.Network self.now) c result o (at_address (moment N.Network self.now) c node address o) }
        ensures within { IfOk result (λ at. (at.0.index ≡ node) × (at.1.index ≡ address)) }
    {
        let at = self.check_node(node)?;
        let cells = self.nodes * self.cells;
        Address::new(address)
            .filter(|cell| cell.index() < cells)
            .map(|cell| (at, cell))
            .ok_or(SystemFault::NoSuchAddress(node, address))
    }
}
