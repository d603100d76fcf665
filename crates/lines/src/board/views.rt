// What a board shows of itself.
ghost use Rattle.std.specs.Prelude.{◌≡◌, map};
ghost use Rattle.lines.specs.Boards.{tables};
ghost use Rattle.lines.specs.Facts.{Facts};
ghost use Rattle.lines.specs.Plain.{plain_command, plain_place, plain_line};

use super::Board;
use crate::types::{Command, Line, Place};

impl Board {
    // Oldest first.
    pub fn commands(&self) -> &[Command]
        ensures { map plain_command result.now ≡ (tables self.now).commands }
    {
        self.raw.commands.as_slice()
    }

    pub fn places(&self) -> &[Place; 32]
        ensures { map plain_place result.now ≡ (tables self.now).places }
    {
        &self.raw.places
    }

    pub fn lines(&self) -> &[Line]
        ensures { map plain_line result.now ≡ (tables self.now).lines }
    {
        self.raw.lines.as_slice()
    }

    pub fn hand(&self) -> usize
        ensures { result ≡ (tables self.now).hand }
    {
        self.raw.hand
    }

    // The ready places, longest ready first.
    pub fn order(&self) -> &[usize]
        ensures { result.now ≡ (tables self.now).order }
    {
        self.raw.order.as_slice()
    }

    // What every board keeps, for a caller's proof.
    pub fn facts(&self)
        ensures { Facts (tables self.now) }
    {}
}
