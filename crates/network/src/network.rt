// What every network promises: a bag of messages under a limit.
ghost use Rattle.std.specs.Prelude.{◌≡◌, ℕ, ◌≤◌, min, List, length, is_ok, Option, OnErr, OnOk, nat_lt};
ghost use Rattle.network.specs.declared.message.Message.{Message};
ghost use Rattle.network.specs.Bags.{Joins, Gives};

use crate::message::Message;
use bounded::Full;

pub trait Network {
    // The messages on the way. Clauses speak of them up to their order.
    ghost bag: { Self → List Message };

    // The most messages that a send leaves there.
    ghost bound: { Self → ℕ };

    // Exactly what an accepted send does.
    ghost sends: { Self → Message → Self → Type 0 } = { λ _ _ _. Unit {0} };

    // Exactly what a take does at each pick: what comes out, and what is left.
    ghost takes: { Self → ℕ → Option Message → Self → Type 0 } = { λ _ _ _ _. Unit {0} };

    fn send(&mut self, m: Message) -> Result<(), Full>
        ensures answer { is_ok result ≡ nat_lt (length (bag self.old)) (bound self.old) }
        ensures bag { Joins (bound self.old) (bag self.old) m (bag self.new) }
        ensures bound { bound self.new ≡ bound self.old }
        ensures same { OnErr result (self.new ≡ self.old) }
        ensures sends { OnOk result (sends self.old m self.new) };

    fn take(&mut self, pick: u64) -> Option<Message>
        ensures bag { Gives (bag self.old) result (bag self.new) }
        ensures bound { bound self.new ≡ bound self.old }
        ensures takes { takes self.old pick result self.new };

    fn count(&self) -> usize
        ensures { result ≡ min (length (bag self.now)) 1024 };

    fn limit(&self) -> usize
        ensures { result ≡ bound self.now };

    ghost small: { (n : Self) → bound n ≤ 1024 };
}
