// Arrays are laid out one behind the other.
ghost use Rattle.std.specs.Prelude.{◌≡◌, ◌||◌, ◌==◌};
ghost use Rattle.protocol.specs.Moments.{create, created};
ghost use Rattle.protocol.specs.Steps.{outside};
ghost use Rattle.system.specs.Systems.{answered};
ghost use Rattle.system.specs.Through.{Called};

use super::System;
use super::start::outside;
use crate::fault::{CreateFault, SystemFault};
use network::Network;

fn bad_array(kind: u64, length: u64) -> bool
    ensures { result ≡ (outside 255 kind || length == 0) }
{
    outside(255, kind) || length == 0
}

impl<N: Network> System<N> {
    // Makes an array behind the others. Answers its base.
    pub fn create(&mut self, kind: u64, length: u64) -> Result<usize, SystemFault>
        ensures { Called N.Network self.old (create kind length) (answered (create kind length) (λ base. created kind length base) result) self.new }
    {
        self.check_started()?;
        if bad_array(kind, length) {
            return Err(SystemFault::Array(CreateFault::BadSize));
        }
        let base = self.end;
        let room = (self.nodes * self.cells).saturating_sub(base);
        if length > room as u64 {
            return Err(SystemFault::Array(CreateFault::NoRoom));
        }
        self.end = base + length as usize;
        Ok(base)
    }
}
