// A network that goes round the destinations, and hands out the oldest message to each.
ghost use Rattle.std.specs.Prelude.{◌≡◌, ◌%◌, []};
ghost use Rattle.bounded.specs.Listed.{listed};
ghost use Rattle.rounds.specs.Rounds.{first_round};
ghost use Rattle.network.specs.Rules.{Appended, LanesTake, first_to, waits};
ghost use Rattle.std.proofs.Common.{rules};

use crate::message::Message;
use crate::network::Network;
use bounded::{ArrayVec, Full};
use rounds::Round;

#[derive(Drop)]
pub struct Lanes {
    held: ArrayVec<Message, 64>,
}

impl Lanes {
    pub fn new() -> Lanes
        ensures { listed result.held ≡ [] }
    {
        Lanes {
            held: ArrayVec::new(Message::blank()),
        }
    }

    // The first destination with messages, from `pick` mod 16 up and round.
    fn next_lane(&self, pick: u64) -> Option<usize>
        ensures { result ≡ first_round (waits (listed self.now.held)) 16 (pick % 16) }
    {
        Round::new((pick % 16) as usize, 16).find(|&lane| {
            first_to(self.held.as_slice(), lane) < self.held.len()
        })
    }
}

// The position of the oldest message to `lane`, or the length where there is none.
fn first_to(messages: &[Message], lane: usize) -> usize
    ensures { result ≡ first_to lane messages.now }
{
    messages
        .iter()
        .position(|m| m.to().index() == lane)
        .unwrap_or(messages.len())
}

impl Network for Lanes {
    ghost bag = { λ l. listed l.held };

    ghost bound = { λ _. 64 };

    ghost sends = { λ l m k. Appended (listed l.held) m (listed k.held) };

    ghost takes = { λ l pick r k. LanesTake (listed l.held) pick r (listed k.held) };

    ghost small = { Prim.search rules };

    fn send(&mut self, m: Message) -> Result<(), Full> {
        self.held.push(m)
    }

    fn take(&mut self, pick: u64) -> Option<Message> {
        let lane = self.next_lane(pick)?;
        let oldest = first_to(self.held.as_slice(), lane);
        self.held.remove(oldest)
    }

    fn count(&self) -> usize {
        self.held.len()
    }

    fn limit(&self) -> usize {
        64
    }
}
