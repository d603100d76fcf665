// The tables as lists: a number that is no place's or no line's is passed over.
ghost use Rattle.std.specs.Prelude.{◌≡◌, ◌<◌, [], ◌∷◌, ◌++◌, map, length, slice_index_or, slice_set};
ghost use Rattle.bounded.specs.Listed.{listed};
ghost use Rattle.lines.specs.Model.{place_at, line_at};
ghost use Rattle.lines.specs.Plain.{plain_place, plain_line};
ghost use Rattle.lines.specs.Raws.{raw_tables};

use super::RawBoard;
use crate::types::{Line, Place};
use bounded::ArrayVec;

// The item at a number; a number that is none has `other`.
pub(super) fn at<T: Copy>(items: &[T], i: usize, other: T) -> T
    ensures { result ≡ slice_index_or items.now i other }
{
    items.get(i).copied().unwrap_or(other)
}

// The place at a number becomes another. (By a test: `get_mut` does not say what the slice ends as.)
#[tactic(auto, using(crate::proofs::Mapped::mapped))]
pub(super) fn put(places: &mut [Place], p: usize, x: Place)
    ensures { map plain_place places.new ≡ slice_set (map plain_place places.old) p (plain_place x) }
{
    if p < places.len() {
        places[p] = x;
    }
}

// Adds `x` behind the others; there is room.
pub(super) fn append<T: Copy, const CAP: usize>(list: &mut ArrayVec<T, CAP>, x: T)
    requires { length (listed list.old) < CAP }
    ensures { listed list.new ≡ listed list.old ++ x ∷ [] }
{
    let _ = list.push(x);
}

impl RawBoard {
    // The place at a number; a number that is none is free.
    pub(super) fn place(&self, p: usize) -> Place
        ensures { plain_place result ≡ place_at (raw_tables self.now) p }
    {
        at(&self.places, p, Place::Free)
    }

    // The line at a number; a number that is none is empty.
    pub(super) fn line(&self, i: usize) -> Line
        ensures { plain_line result ≡ line_at (raw_tables self.now) i }
    {
        at(self.lines.as_slice(), i, Line::Empty)
    }
}
