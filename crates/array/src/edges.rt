ghost use Rattle.std.specs.Prelude.{◌≡◌};
ghost use Rattle.array.specs.Edges.{Edges};

use crate::element::{Element, NotAnElement};
use crate::reference::ArrayRef;

// What packing and opening answer at the edges of each kind.
#[derive(Clone, Copy, PartialEq)]
pub struct EdgeWords {
    pub minus_one: u64,
    pub one: u64,
    pub not_a_number: u64,
    pub other_not_a_number: Result<f32, NotAnElement>,
    pub array: Option<u64>,
    pub not_an_array: Result<ArrayRef, NotAnElement>,
}

// The proved cases, all in one list; those of words are run.
pub fn words_at_the_edges() -> EdgeWords
    ensures { Edges result }
{
    EdgeWords {
        minus_one: (-1i64).pack(),
        one: 1.0f32.pack(),
        not_a_number: (0.0f32 / 0.0).pack(),
        other_not_a_number: f32::open(0x7FC0_0001),
        // Kind 1, base 4 and length 3.
        array: ArrayRef::new(1, 4, 3).map(|array| array.pack()),
        not_an_array: ArrayRef::open(65537),
    }
}
