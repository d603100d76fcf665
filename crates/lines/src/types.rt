// What a board's tables hold, what comes out of it, and why it refuses.
ghost use Rattle.std.specs.Prelude.{◌≡◌, ◌-◌};
ghost use Rattle.lines.specs.declared.types.ActFault.TheVariants.{Lines};

use bounded::ArrayVec;
use network::{Address, Node};

// Where the answer of a read goes on.
#[derive(Clone, Copy, PartialEq, Eq)]
pub struct Continuation {
    pub frame: u32,
    pub instruction: u32,
}

#[derive(Clone, Copy, PartialEq, Eq)]
pub struct Read {
    pub address: Address,
    pub continuation: Continuation,
}

// A place for a read; a ready or drawn one has the word.
#[derive(Clone, Copy, PartialEq, Eq)]
pub enum Place {
    Free,
    Held(Read),
    Deferred(Read),
    Ready(Read, u64),
    Drawn(Read, u64),
}

// A waiting line has the places that wait, oldest first.
#[derive(Clone, Copy)]
pub enum Line {
    Empty,
    Waiting(Address, ArrayVec<usize, 32>),
    Filled(Address, u64),
}

// A read command names its place.
// Address and word stand as two values, as the calls, a message and the model's constructors take them.
#[derive(Clone, Copy, PartialEq, Eq)]
pub enum Command {
    Read(usize),
    Write(Address, u64),
}

// What goes out to the home of an address.
#[derive(Clone, Copy, PartialEq, Eq)]
pub enum Outgoing {
    Read(Address),
    Write(Address, u64),
}

// What an act did: how many places it made ready, and what goes out.
#[derive(Clone, Copy, PartialEq, Eq)]
pub struct Acted {
    pub readied: usize,
    pub sends: Option<Outgoing>,
}

// The word of a place that was ready longest.
#[derive(Clone, Copy, PartialEq, Eq)]
pub struct Answer {
    pub place: usize,
    pub read: Read,
    pub word: u64,
}

// How many messages the network holds, and how many it may hold.
#[derive(Clone, Copy, PartialEq, Eq)]
pub struct Traffic {
    pub load: usize,
    pub limit: usize,
}

impl Traffic {
    // How many more it may hold.
    pub fn room(self) -> usize
        ensures { result ≡ self.limit - self.load }
    {
        self.limit.saturating_sub(self.load)
    }
}

// One act's numbers: the node, the command that it takes (the oldest is 0), and the network's traffic.
#[derive(Clone, Copy)]
pub(crate) struct Turn {
    pub(crate) node: Node,
    pub(crate) pick: usize,
    pub(crate) traffic: Traffic,
}

// No place is free.
#[derive(Clone, Copy, PartialEq, Eq)]
pub struct PlacesTaken;

// As many writes are held as may be.
#[derive(Clone, Copy, PartialEq, Eq)]
pub struct WritesHeld;

#[derive(Clone, Copy, PartialEq, Eq)]
pub struct NotDrawn;

// The faults of the lines, with the node and the address.
#[derive(Clone, Copy, PartialEq, Eq)]
pub enum LineFault {
    EveryLineWaits(Node, Address),
    WrittenTwice(Node, Address),
}

#[derive(Clone, Copy, PartialEq, Eq)]
pub enum ActFault {
    NoSuchCommand,
    NetworkFull(Address),
    Lines(LineFault),
}

impl From<LineFault> for ActFault {
    ghost from_gives = { λ fault whole. whole ≡ Lines fault };

    fn from(fault: LineFault) -> ActFault {
        ActFault::Lines(fault)
    }
}

// What a line of an address says: that it waits (the line's number), or the word that it holds.
#[derive(Clone, Copy)]
pub(crate) enum Found {
    Waits(usize),
    Holds(u64),
}
