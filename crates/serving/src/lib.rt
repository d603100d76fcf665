// A session behind an input and an output: each line that is read is answered by a line.
#![tactic(auto)]

mod input;

pub use input::serve;
