// New tables.
ghost use Rattle.std.specs.Prelude.{◌≡◌, ◌≤◌, map, replicate};
ghost use Rattle.bounded.specs.Listed.{listed};
ghost use Rattle.lines.specs.Model.{empty, start};
ghost use Rattle.lines.specs.Plain.{plain_line};
ghost use Rattle.lines.specs.Raws.{raw_tables};

use super::RawBoard;
use super::access::append;
use crate::types::{Command, Line, Place};
use bounded::ArrayVec;

fn empty_lines(n: usize) -> ArrayVec<Line, 16>
    requires { n ≤ 16 }
    ensures { map plain_line (listed result) ≡ replicate n empty }
{
    let mut lines = ArrayVec::new(Line::Empty);
    for _i in 0..n {
        append(&mut lines, Line::Empty);
    }
    lines
}

impl RawBoard {
    // Nothing but free places and empty lines; the first place to be given is 0.
    pub(crate) fn new(lines: usize) -> RawBoard
        requires { lines ≤ 16 }
        ensures { raw_tables result ≡ start lines }
    {
        RawBoard {
            commands: ArrayVec::new(Command::Read(0)),
            writes: 0,
            places: [Place::Free; 32],
            last: 31,
            lines: empty_lines(lines),
            hand: 0,
            order: ArrayVec::new(0),
        }
    }
}
