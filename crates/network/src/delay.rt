// A network over another, with room for eight messages of its own that wait until the one below is empty.
ghost use Rattle.std.specs.Prelude.{◌≡◌, ◌+◌, min, [], ◌++◌, length, nat_lt};
ghost use Rattle.bounded.specs.Listed.{listed};
ghost use Rattle.network.specs.Bags.{TakenAt, Tried};
ghost use Rattle.network.specs.Rules.{Appended, SentOn};
ghost use Rattle.std.proofs.Common.{rules};

use crate::message::Message;
use crate::network::Network;
use bounded::{ArrayVec, Full};

#[derive(Drop)]
pub struct Delay<N> {
    own: ArrayVec<Message, 8>,
    below: N,
}

impl<N: Network> Delay<N> {
    pub fn new(below: N) -> Delay<N>
        ensures { (listed result.own ≡ []) × (result.below ≡ below) }
    {
        Delay {
            own: ArrayVec::new(Message::blank()),
            below,
        }
    }
}

impl<N: Network> Network for Delay<N> {
    ghost bag = { λ d. listed d.own ++ N.Network.bag d.below };

    ghost bound = { λ d. min (N.Network.bound d.below + 8) 1024 };

    // To its own store while that holds fewer than eight, and then below.
    ghost sends = { λ d m e. SentOn (nat_lt (length (listed d.own)) 8) Appended N.Network.sends (listed d.own) d.below m (listed e.own) e.below };

    // From below by the same pick, and its own oldest where that is empty.
    ghost takes = { λ d pick r e. Tried (λ n. N.Network.takes n pick) d.below e.below (TakenAt 0) (listed d.own) r (listed e.own) };

    ghost small = { Prim.search rules };

    fn send(&mut self, m: Message) -> Result<(), Full> {
        if self.count() >= self.limit() {
            return Err(Full);
        }
        // Not `or_else` (tried): what a closure leaves of the other network has no name in a proof. So in `take`.
        match self.own.push(m) {
            Ok(()) => Ok(()),
            Err(_) => self.below.send(m),
        }
    }

    fn take(&mut self, pick: u64) -> Option<Message> {
        match self.below.take(pick) {
            Some(m) => Some(m),
            None => self.own.remove(0),
        }
    }

    fn count(&self) -> usize {
        (self.own.len() + self.below.count()).min(1024)
    }

    fn limit(&self) -> usize {
        (self.below.limit() + 8).min(1024)
    }
}
