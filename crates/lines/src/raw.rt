// The tables of a board. What they keep together is said, and kept, by the board around them.
// Between the steps of a call they do not keep it, so no ghost field here says it: who needs it asks for it.
ghost use Rattle.std.specs.Prelude.{◌≡◌, map};
ghost use Rattle.bounded.specs.Listed.{listed};
ghost use Rattle.lines.specs.Model.{writes as write_commands};
ghost use Rattle.lines.specs.Plain.{plain_command};

use crate::types::{Command, Line, Place};
use bounded::ArrayVec;

#[derive(Clone, Copy)]
pub(crate) struct RawBoard {
    pub(crate) commands: ArrayVec<Command, 64>,
    writes: usize,
    pub(crate) places: [Place; 32],
    last: usize,
    pub(crate) lines: ArrayVec<Line, 16>,
    pub(crate) hand: usize,
    pub(crate) order: ArrayVec<usize, 32>,
    ghost counted: { writes ≡ write_commands (map plain_command (listed commands)) },
}

mod access;
mod acts;
mod fresh;
mod lines;
mod places;
