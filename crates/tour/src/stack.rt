// A network as a stranger might write it, each method by itself: it hands out its newest message, and shows the rules of the bag alone.
ghost use Rattle.std.specs.Prelude.{◌≡◌, []};
ghost use Rattle.bounded.specs.Listed.{listed};
ghost use Rattle.std.proofs.Common.{rules};

use bounded::ArrayVec;
use network::{Full, Message, Network};

const LIMIT: usize = 32;

#[derive(Drop)]
pub struct Stack {
    held: ArrayVec<Message, LIMIT>,
}

impl Stack {
    pub fn new(blank: Message) -> Stack
        ensures { listed result.held ≡ [] }
    {
        Stack {
            held: ArrayVec::new(blank),
        }
    }
}

impl Network for Stack {
    ghost bag = { λ s. listed s.held };

    ghost bound = { λ _. 32 };

    ghost small = { Prim.search rules };

    fn send(&mut self, m: Message) -> Result<(), Full> {
        self.held.push(m)
    }

    // The newest first, whatever the pick.
    fn take(&mut self, _pick: u64) -> Option<Message> {
        let last = self.held.len().checked_sub(1)?;
        self.held.remove(last)
    }

    fn count(&self) -> usize {
        self.held.len()
    }

    fn limit(&self) -> usize {
        LIMIT
    }
}
