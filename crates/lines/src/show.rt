// The tables in words: an address by its number, with the word after a colon.
ghost use Rattle.std.specs.Prelude.{Some};
ghost use Rattle.std.specs.Fmt.{WritesOnOk};
ghost use Rattle.lines.specs.Plain.{plain_place, plain_line, plain_command};
ghost use Rattle.lines.specs.Shown.{shown_place, shown_line, shown_command, with_spaces};

use crate::types::{Command, Line, Place};
use std::fmt;

impl fmt::Display for Place {
    ghost output = { λ place. Some (shown_place (plain_place place)) };

    fn fmt<W: fmt::Write>(&self, f: &mut fmt::Formatter<W>) -> fmt::Result {
        match self {
            Place::Free => write!(f, "free"),
            Place::Held(read) => write!(f, "held {}", read.address),
            Place::Deferred(read) => write!(f, "deferred {}", read.address),
            Place::Ready(read, word) => write!(f, "ready {}: {word}", read.address),
            Place::Drawn(read, word) => write!(f, "drawn {}: {word}", read.address),
        }
    }
}

fn list<W: fmt::Write>(places: &[usize], f: &mut fmt::Formatter<W>) -> fmt::Result
    ensures { WritesOnOk W.Write.write_str_gives f.old result (with_spaces places.now) f.new }
{
    for place in places {
        write!(f, " {place}")?;
    }
    Ok(())
}

impl fmt::Display for Line {
    ghost output = { λ line. Some (shown_line (plain_line line)) };

    fn fmt<W: fmt::Write>(&self, f: &mut fmt::Formatter<W>) -> fmt::Result {
        match self {
            Line::Empty => write!(f, "empty"),
            Line::Waiting(address, places) => {
                write!(f, "waiting {address}, places")?;
                list(places.as_slice(), f)
            }
            Line::Filled(address, word) => write!(f, "filled {address}: {word}"),
        }
    }
}

impl fmt::Display for Command {
    ghost output = { λ command. Some (shown_command (plain_command command)) };

    fn fmt<W: fmt::Write>(&self, f: &mut fmt::Formatter<W>) -> fmt::Result {
        match self {
            Command::Read(place) => write!(f, "read at {place}"),
            Command::Write(address, word) => write!(f, "write {address}: {word}"),
        }
    }
}
