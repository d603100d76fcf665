// What travels between boards. Values outside the machine's limits cannot be made.
ghost use Rattle.std.specs.Prelude.{◌≡◌, ◌<◌};
ghost use Rattle.network.specs.Carried.{carried};

use std::fmt;

#[derive(Clone, Copy, PartialEq, Eq)]
pub enum Kind {
    Read,
    Write,
    Reply,
}

// A number below a limit.
#[derive(Clone, Copy, PartialEq, Eq)]
pub struct Number<const LIMIT: u16> {
    index: u16,
    ghost within: { index < LIMIT },
}

// The number of one of sixteen boards.
pub type Node = Number<16>;

// The number of one of 1,024 cells.
pub type Address = Number<1024>;

// The sender of a reply is the home of its address. A read carries the word 0.
// Kind and word stand apart: any message is asked for both, and the theorems count by kinds alone.
#[derive(Clone, Copy)]
pub struct Message {
    kind: Kind,
    to: Node,
    address: Address,
    from: Node,
    word: u64,
    ghost wordless: { word ≡ carried kind word },
}

mod methods;
