// The home of one cell of a write-once memory.
#![tactic(auto)]

mod cell;
mod replies;
mod set;

pub use cell::{Cell, WrittenTwice};
pub use replies::Replies;
pub use set::{Members, NodeSet};
