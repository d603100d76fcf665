// What a refusal tells, whichever part of the memory refuses.
#![tactic(auto)]

mod layer;
mod refusal;

pub use layer::Layer;
pub use refusal::Refusal;
