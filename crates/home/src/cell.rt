ghost use Rattle.std.specs.Prelude.{◌≡◌, Some};
ghost use Rattle.network.specs.Messages.{plain};
ghost use Rattle.home.specs.Cells.{after, answer, told, twice};
ghost use Rattle.home.specs.Shown.{shown_cell, shown_twice};

use super::replies::Replies;
use super::set::NodeSet;
use network::{Address, Kind, Message, Node};
use std::fmt;

// A cell of write-once memory; the nodes in the set have asked for its word and had no reply.
#[derive(Clone, Copy)]
pub enum Cell {
    Undefined,
    Waiting(NodeSet),
    Defined(u64),
}

// The refusal of a write to a cell that has its word: who wrote, and where.
#[derive(Clone, Copy, PartialEq, Eq)]
pub struct WrittenTwice {
    writer: Node,
    address: Address,
}

impl Cell {
    // What a home does with a message for this cell.
    pub fn receive(&mut self, message: Message) -> Result<Replies, WrittenTwice>
        ensures cell { self.new ≡ after self.old (plain message) }
        ensures answer { told result ≡ answer self.old (plain message) }
    {
        let sender = message.from();
        let word = message.word();
        match (&mut *self, message.kind()) {
            (Cell::Undefined, Kind::Read) => {
                *self = Cell::Waiting(NodeSet::only(sender));
                Ok(Replies::none(message))
            }
            (Cell::Waiting(readers), Kind::Read) => {
                readers.insert(sender);
                Ok(Replies::none(message))
            }
            (Cell::Defined(held), Kind::Read) => Ok(Replies::new(
                NodeSet::only(sender),
                message,
                *held,
            )),
            (Cell::Undefined, Kind::Write) => {
                *self = Cell::Defined(word);
                Ok(Replies::none(message))
            }
            (Cell::Waiting(readers), Kind::Write) => {
                let replies = Replies::new(*readers, message, word);
                *self = Cell::Defined(word);
                Ok(replies)
            }
            (Cell::Defined(_), Kind::Write) => Err(WrittenTwice {
                writer: sender,
                address: message.address(),
            }),
            (_, Kind::Reply) => Ok(Replies::none(message)),
        }
    }
}

impl WrittenTwice {
    pub fn writer(self) -> Node
        ensures { result ≡ self.writer }
    {
        self.writer
    }

    pub fn address(self) -> Address
        ensures { result ≡ self.address }
    {
        self.address
    }
}

impl fmt::Display for Cell {
    ghost output = { λ cell. Some (shown_cell cell) };

    fn fmt<W: fmt::Write>(&self, f: &mut fmt::Formatter<W>) -> fmt::Result {
        match self {
            Cell::Undefined => write!(f, "undefined"),
            Cell::Waiting(readers) => write!(f, "waiting {readers}"),
            Cell::Defined(word) => write!(f, "defined {word}"),
        }
    }
}

impl fmt::Display for WrittenTwice {
    ghost output = { λ fault. Some (shown_twice (twice fault)) };

    fn fmt<W: fmt::Write>(&self, f: &mut fmt::Formatter<W>) -> fmt::Result {
        write!(
            f,
            "address {} is written twice, now by node {}",
            self.address, self.writer
        )
    }
}
