// Counting up and round.
#![tactic(auto)]

ghost use Rattle.std.specs.Prelude.{◌≡◌};
ghost use Rattle.std.specs.Iterator.{YieldsFirst, item_count};
ghost use Rattle.rounds.specs.Rounds.{after, CountsRound, FindsFirst, walk};

use std::marker::Model;

// The number after `i` of `n` numbers; after the last comes 0.
#[tactic(auto, using(crate::proofs::Rounds::counts_round))]
pub fn one_past(i: usize, n: usize) -> usize
    ensures value { result ≡ after n i }
    ensures law { CountsRound }
{
    i.checked_add(1).filter(|&next| next < n).unwrap_or(0)
}

// The numbers met by going up and round, seen as the list of those that are left.
#[derive(Drop)]
pub struct Round {
    next: usize,
    left: usize,
    count: usize,
}

impl Model for Round {
    ghost use Rattle.std.specs.Prelude.{ℕ, List};
    ghost use Rattle.rounds.specs.Rounds.{walk};

    ghost Value = { List ℕ };

    ghost view = { λ r. walk r.count r.left r.next };
}

impl Round {
    // The `n` numbers counted up and round from `start`.
    #[tactic(auto, using(crate::proofs::Rounds::walk_finds))]
    pub fn new(start: usize, n: usize) -> Round
        ensures value { result ≡ walk n n start }
        ensures law { FindsFirst }
    {
        Round {
            next: start,
            left: n,
            count: n,
        }
    }
}

impl Iterator for Round {
    type Item = usize;

    ghost next_gives = { YieldsFirst (λ left. left) };

    ghost remaining = { item_count (λ left. left) };

    #[tactic(auto, using(crate::proofs::Rounds::walks, crate::proofs::Rounds::walk_end))]
    fn next(&mut self) -> Option<usize> {
        self.left = self.left.checked_sub(1)?;
        let i = self.next;
        self.next = one_past(i, self.count);
        Some(i)
    }
}
