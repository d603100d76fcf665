// Two networks side by side.
ghost use Rattle.std.specs.Prelude.{◌≡◌, ◌+◌, min, ◌++◌, length, nat_lt};
ghost use Rattle.network.specs.Rules.{SentOn, TwinTakes};
ghost use Rattle.std.proofs.Common.{rules};

use crate::message::Message;
use crate::network::Network;
use bounded::Full;

#[derive(Drop)]
pub struct Twin<P, Q> {
    first: P,
    second: Q,
}

impl<P: Network, Q: Network> Twin<P, Q> {
    pub fn new(first: P, second: Q) -> Twin<P, Q>
        ensures { (result.first ≡ first) × (result.second ≡ second) }
    {
        Twin { first, second }
    }
}

impl<P: Network, Q: Network> Network for Twin<P, Q> {
    ghost bag = { λ t. P.Network.bag t.first ++ Q.Network.bag t.second };

    ghost bound = { λ t. min (P.Network.bound t.first + Q.Network.bound t.second) 1024 };

    // To the first until that is full, and then to the second.
    ghost sends = { λ t m u. SentOn (nat_lt (length (P.Network.bag t.first)) (P.Network.bound t.first)) P.Network.sends Q.Network.sends t.first t.second m u.first u.second };

    ghost takes = { λ t pick r u. TwinTakes P.Network.takes Q.Network.takes t.first t.second pick r u.first u.second };

    ghost small = { Prim.search rules };

    fn send(&mut self, m: Message) -> Result<(), Full> {
        if self.count() >= self.limit() {
            return Err(Full);
        }
        // Not `or_else`, here and below, as in the delay.
        match self.first.send(m) {
            Ok(()) => Ok(()),
            Err(_) => self.second.send(m),
        }
    }

    fn take(&mut self, pick: u64) -> Option<Message> {
        // In either order: one function for both would have to say which of the two gave.
        let half = pick / 2;
        if pick % 2 == 0 {
            match self.first.take(half) {
                Some(m) => Some(m),
                None => self.second.take(half),
            }
        } else {
            match self.second.take(half) {
                Some(m) => Some(m),
                None => self.first.take(half),
            }
        }
    }

    fn count(&self) -> usize {
        (self.first.count() + self.second.count()).min(1024)
    }

    fn limit(&self) -> usize {
        (self.first.limit() + self.second.limit()).min(1024)
    }
}
