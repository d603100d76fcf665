// A board, with the facts that every board keeps.
ghost use Rattle.lines.specs.Facts.{Facts};
ghost use Rattle.lines.specs.Raws.{raw_tables};

use crate::raw::RawBoard;

#[derive(Clone, Copy)]
pub struct Board {
    raw: RawBoard,
    ghost facts: { Facts (raw_tables raw) },
}

mod calls;
mod views;
