// A session begins.
ghost use Rattle.std.specs.Prelude.{◌≡◌, []};
ghost use Rattle.protocol.specs.Steps.{Reached};
ghost use Rattle.system.specs.Systems.{moment};
ghost use Rattle.session.specs.Sessions.{EveryScript};

use super::Session;
use network::Network;
use system::{Parking, System};

impl<N: Network> Session<N> {
    // An unused memory over a network, whatever that holds, and nothing parked.
    pub fn new(network: N) -> Session<N>
        ensures reached { Reached [] (moment N.Network result.system) }
        ensures network { result.system.network ≡ network }
        ensures laws { EveryScript N.Network result }
    {
        Session {
            system: System::new(network),
            parking: Parking::new(),
        }
    }
}
