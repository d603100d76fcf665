// One board of a write-once memory: its commands, its places for reads, and its lines.
#![tactic(auto)]

mod board;
mod raw;
mod show;
mod types;

pub use board::Board;
pub use types::{
    ActFault, Acted, Answer, Command, Continuation, Line, LineFault, NotDrawn, Outgoing, Place,
    PlacesTaken, Read, Traffic, WritesHeld,
};
