// A list of at most CAP values, kept in place.
#![tactic(auto)]

mod list;

pub use list::{ArrayVec, Full};
