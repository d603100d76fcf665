// What the words of a write-once memory stand for: elements of some kind, and arrays of them.
#![tactic(auto)]

mod calls;
mod edges;
mod element;
mod fault;
mod number;
mod reference;
mod sample;

pub use calls::{create, open_answer, read_element, write_element};
pub use edges::{EdgeWords, words_at_the_edges};
pub use element::{Element, NotAnElement};
pub use fault::ArrayFault;
pub use reference::ArrayRef;
