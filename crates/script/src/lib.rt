// The text of scripts: a line as a call, calls and answers as lines, and a whole input as lines.
#![tactic(auto)]

mod answer;
mod call;
mod draft;
mod fault;
mod fields;
mod number;
mod parse;
mod print;
mod reader;

pub use answer::Answer;
pub use call::Call;
pub use fault::{BufferShort, NotALine};
pub use print::{print_answer, print_call};
pub use reader::{Line, LineReader};
pub use refusals::{Layer, Refusal};
