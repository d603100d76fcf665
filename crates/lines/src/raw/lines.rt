// The lines: an address is looked up, a line is claimed, a word comes in.
ghost use Rattle.std.specs.Prelude.{◌≡◌, ℕ, ◌+◌, ◌<◌, ◌≤◌, [], ◌∷◌, ◌++◌, map, length, slice_index_or, slice_set};
ghost use Rattle.bounded.specs.Listed.{listed};
ghost use Rattle.rounds.specs.Rounds.{first_round};
ghost use Rattle.lines.specs.Facts.{Facts, times, if_deferred};
ghost use Rattle.lines.specs.Model.{free, ready, read_of, waiting, is_empty, is_filled, line_at, tells, found, waits, joined, joining, claimed, claiming, woken, filling, filling_new, replied};
ghost use Rattle.lines.specs.Plain.{plain_place, plain_line, plain_found};
ghost use Rattle.lines.specs.Raws.{raw_tables};

use super::RawBoard;
use super::access::{append, at, put};
use crate::types::{Found, Line, Place};
use bounded::ArrayVec;
use network::Address;
use rounds::{Round, one_past};

impl Line {
    fn is_empty(self) -> bool
        ensures { result ≡ is_empty (plain_line self) }
    {
        matches!(self, Line::Empty)
    }

    fn is_filled(self) -> bool
        ensures { result ≡ is_filled (plain_line self) }
    {
        matches!(self, Line::Filled(_, _))
    }

    // What this line, number `i`, says of an address.
    fn tells(&self, address: Address, i: usize) -> Option<Found>
        ensures { plain_found result ≡ tells address.index i (plain_line self.now) }
    {
        match self {
            Line::Waiting(a, _) if *a == address => Some(Found::Waits(i)),
            Line::Filled(a, word) if *a == address => Some(Found::Holds(*word)),
            _ => None,
        }
    }

    // The places that wait.
    fn places(self) -> ArrayVec<usize, 32>
        ensures { listed result ≡ waits (plain_line self) }
    {
        match self {
            Line::Waiting(_, places) => places,
            _ => ArrayVec::new(0),
        }
    }

    // A line at which one place waits.
    pub(super) fn waiting(address: Address, place: usize) -> Line
        ensures { plain_line result ≡ waiting address.index (place ∷ []) }
    {
        let mut places = ArrayVec::new(0);
        append(&mut places, place);
        Line::Waiting(address, places)
    }

    // The line with one more place that waits, behind the others.
    fn joined(mut self, place: usize) -> Line
        requires { length (waits (plain_line self)) < 32 }
        ensures { plain_line result ≡ joined place (plain_line self) }
    {
        if let Line::Waiting(_, places) = &mut self {
            append(places, place);
        }
        self
    }
}

pub(super) fn find(lines: &[Line], address: Address) -> Option<Found>
    ensures { plain_found result ≡ found address.index 0 (map plain_line lines.now) }
{
    lines
        .iter()
        .enumerate()
        .find_map(|(i, line)| line.tells(address, i))
}

// A place that waits gets its word.
fn wake_one(places: &mut [Place], place: usize, word: u64)
    requires { 1 ≤ if_deferred (slice_index_or (map plain_place places.old) place free) }
    ensures { map plain_place places.new ≡ slice_set (map plain_place places.old) place (ready (read_of (slice_index_or (map plain_place places.old) place free)) word) }
{
    if let Place::Deferred(read) = at(places, place, Place::Free) {
        put(places, place, Place::Ready(read, word));
    }
}

// The places that wait become ready, oldest first.
fn wake(places: &mut [Place], order: &mut ArrayVec<usize, 32>, waiting: &[usize], word: u64)
    requires deferred { (p : ℕ) → times p waiting.now ≤ if_deferred (slice_index_or (map plain_place places.old) p free) }
    requires room { length (listed order.old) + length waiting.now ≤ 32 }
    ensures places { map plain_place places.new ≡ woken word (map plain_place places.old) waiting.now }
    ensures order { listed order.new ≡ listed order.old ++ waiting.now }
{
    for place in waiting {
        wake_one(places, *place, word);
        append(order, *place);
    }
}

impl RawBoard {
    // The line that a new address takes: an empty one, or else a filled one.
    pub(super) fn claim(&self) -> Option<usize>
        ensures { result ≡ claimed (raw_tables self.now) }
    {
        let (hand, lines) = (self.hand, self.lines.len());
        let empty = Round::new(hand, lines).find(|&i| self.line(i).is_empty());
        empty.or_else(
            ||
                ensures { result ≡ first_round (λ i. is_filled (line_at (raw_tables self.entry.now) i)) lines hand }
            { Round::new(hand, lines).find(|&i| self.line(i).is_filled()) },
        )
    }

    // Line `i` is claimed, and the hand goes to the line after it.
    #[tactic(auto, using(crate::proofs::Mapped::mapped))]
    pub(super) fn take_line(&mut self, i: usize, line: Line)
        ensures { raw_tables self.new ≡ claiming (raw_tables self.old) i (plain_line line) }
    {
        self.hand = one_past(i, self.lines.len());
        self.lines.set(i, line);
    }

    // One more place waits at line `i`.
    #[tactic(auto, using(crate::proofs::Mapped::mapped))]
    pub(super) fn join(&mut self, i: usize, place: usize)
        requires { length (waits (line_at (raw_tables self.old) i)) < 32 }
        ensures { raw_tables self.new ≡ joining (raw_tables self.old) i place }
    {
        if let Some(line) = self.lines.get(i) {
            self.lines.set(i, line.joined(place));
        }
    }

    // The word comes to line `i`: its places become ready, oldest first. Answers how many they are.
    #[tactic(auto, using(crate::proofs::Mapped::mapped))]
    pub(super) fn fill(&mut self, i: usize, address: Address, word: u64) -> usize
        requires { Facts (raw_tables self.old) }
        ensures answer { result ≡ length (waits (line_at (raw_tables self.old) i)) }
        ensures after { raw_tables self.new ≡ filling (raw_tables self.old) i address.index word }
    {
        let waiting = self.line(i).places();
        wake(&mut self.places, &mut self.order, waiting.as_slice(), word);
        self.lines.set(i, Line::Filled(address, word));
        waiting.len()
    }

    // The word takes a line of its own, unless every line waits.
    pub(super) fn fill_new(&mut self, address: Address, word: u64)
        ensures { raw_tables self.new ≡ filling_new (raw_tables self.old) address.index word (claimed (raw_tables self.old)) }
    {
        if let Some(i) = self.claim() {
            self.take_line(i, Line::Filled(address, word));
        }
    }

    pub(crate) fn reply(&mut self, address: Address, word: u64) -> usize
        requires { Facts (raw_tables self.old) }
        ensures answer { result ≡ (replied (raw_tables self.old) address.index word).answer }
        ensures after { raw_tables self.new ≡ (replied (raw_tables self.old) address.index word).after }
    {
        match find(self.lines.as_slice(), address) {
            Some(Found::Waits(i)) => self.fill(i, address, word),
            _ => 0,
        }
    }
}
