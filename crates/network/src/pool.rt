// A network that hands out any of its messages, by position in order of sending.
ghost use Rattle.std.specs.Prelude.{◌≡◌, []};
ghost use Rattle.bounded.specs.Listed.{listed};
ghost use Rattle.network.specs.declared.message.Message.{Message};
ghost use Rattle.network.specs.Bags.{BagLaws};
ghost use Rattle.network.specs.Rules.{Appended, PoolTakes};
ghost use Rattle.std.proofs.Common.{rules};

use crate::message::Message;
use crate::network::Network;
use bounded::{ArrayVec, Full};

// Of the network's methods only take is not as in the lanes: a trait for it, with its rule, would be no shorter.
#[derive(Drop)]
pub struct Pool {
    held: ArrayVec<Message, 64>,
}

impl Pool {
    pub fn new() -> Pool
        ensures empty { listed result.held ≡ [] }
        ensures laws { BagLaws Message }
    {
        Pool {
            held: ArrayVec::new(Message::blank()),
        }
    }
}

impl Network for Pool {
    ghost bag = { λ p. listed p.held };

    ghost bound = { λ _. 64 };

    ghost sends = { λ p m q. Appended (listed p.held) m (listed q.held) };

    ghost takes = { λ p pick r q. PoolTakes (listed p.held) pick r (listed q.held) };

    ghost small = { Prim.search rules };

    fn send(&mut self, m: Message) -> Result<(), Full> {
        self.held.push(m)
    }

    fn take(&mut self, pick: u64) -> Option<Message> {
        let position = pick.checked_rem(self.held.len() as u64)?;
        self.held.remove(position as usize)
    }

    fn count(&self) -> usize {
        self.held.len()
    }

    fn limit(&self) -> usize {
        64
    }
}
