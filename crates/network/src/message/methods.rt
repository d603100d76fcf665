ghost use Rattle.std.specs.Prelude.{◌≡◌, ◌<◌, Some, decimal};
ghost use Rattle.std.specs.Option.{option_map};
ghost use Rattle.network.specs.Messages.{below, plain, reading, writing, replying};
ghost use Rattle.network.specs.Shown.{shown_kind, shown_message};

use super::{Address, Kind, Message, Node, Number};
use std::fmt;

impl<const LIMIT: u16> Number<LIMIT> {
    // Not a TryFrom: as with `NonZero::new`, there is nothing to say of a refusal.
    pub fn new(number: u64) -> Option<Number<LIMIT>>
        ensures { option_map (λ n. n.index) result ≡ below LIMIT number }
    {
        // A match, since of a closure over `LIMIT` the check infers nothing.
        match u16::try_from(number) {
            Ok(index) if index < LIMIT => Some(Number { index }),
            _ => None,
        }
    }

    pub fn index(self) -> usize
        ensures value { result ≡ self.entry.index }
        ensures bound { result < LIMIT }
    {
        usize::from(self.index)
    }
}

impl<const LIMIT: u16> From<Number<LIMIT>> for u64 {
    ghost from_gives = { λ n number. number ≡ n.index };

    fn from(n: Number<LIMIT>) -> u64 {
        u64::from(n.index)
    }
}

impl Message {
    // What stands where no message does.
    pub(crate) fn blank() -> Message
        ensures { plain result ≡ reading 0 0 0 }
    {
        let node = Number { index: 0 };
        Message::read(node, Number { index: 0 }, node)
    }

    // The node `from` asks the home of the address for its word.
    pub fn read(to: Node, address: Address, from: Node) -> Message
        ensures { plain result ≡ reading to.index address.index from.index }
    {
        Message {
            kind: Kind::Read,
            to,
            address,
            from,
            word: 0,
        }
    }

    // The node `from` gives the home of the address its word.
    // (A reply has a function of its own: one with a kind to choose could be asked for a read with a word.)
    pub fn write(to: Node, address: Address, from: Node, word: u64) -> Message
        ensures { plain result ≡ writing to.index address.index from.index word }
    {
        Message {
            kind: Kind::Write,
            to,
            address,
            from,
            word,
        }
    }

    // The home `from` answers a node with the address's word.
    pub fn reply(to: Node, address: Address, from: Node, word: u64) -> Message
        ensures { plain result ≡ replying to.index address.index from.index word }
    {
        Message {
            kind: Kind::Reply,
            to,
            address,
            from,
            word,
        }
    }

    pub fn kind(self) -> Kind
        ensures { result ≡ self.kind }
    {
        self.kind
    }

    pub fn to(self) -> Node
        ensures { result ≡ self.to }
    {
        self.to
    }

    pub fn address(self) -> Address
        ensures { result ≡ self.address }
    {
        self.address
    }

    pub fn from(self) -> Node
        ensures { result ≡ self.from }
    {
        self.from
    }

    pub fn word(self) -> u64
        ensures { result ≡ self.word }
    {
        self.word
    }
}

impl<const LIMIT: u16> fmt::Display for Number<LIMIT> {
    ghost output = { λ n. Some (decimal n.index) };

    fn fmt<W: fmt::Write>(&self, f: &mut fmt::Formatter<W>) -> fmt::Result {
        write!(f, "{}", self.index)
    }
}

impl fmt::Display for Kind {
    ghost output = { λ kind. Some (shown_kind kind) };

    fn fmt<W: fmt::Write>(&self, f: &mut fmt::Formatter<W>) -> fmt::Result {
        match self {
            Kind::Read => write!(f, "READ"),
            Kind::Write => write!(f, "WRITE"),
            Kind::Reply => write!(f, "REPLY"),
        }
    }
}

impl fmt::Display for Message {
    ghost output = { λ m. Some (shown_message (plain m)) };

    fn fmt<W: fmt::Write>(&self, f: &mut fmt::Formatter<W>) -> fmt::Result {
        write!(
            f,
            "{} from {} to {}, address {}, word {}",
            self.kind, self.from, self.to, self.address, self.word
        )
    }
}
