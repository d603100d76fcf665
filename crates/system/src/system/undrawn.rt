// Why a place that is not drawn is neither finished nor put back.
ghost use Rattle.system.specs.Faults.{refusal_of};
ghost use Rattle.system.specs.Systems.{moment};
ghost use Rattle.system.specs.Undrawn.{Undrawn};

use super::System;
use crate::fault::SystemFault;
use network::Network;

impl<N: Network> System<N> {
    // The fault of a finish or a put back at a node of a place that is not drawn there.
    pub fn undrawn(&self, node: u64) -> SystemFault
        ensures { Undrawn (moment N.Network self.now) node (refusal_of result) }
    {
        self.check_node(node)
            .err()
            .unwrap_or(SystemFault::NotDrawn(node))
    }
}
