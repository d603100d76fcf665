// A write-once memory of up to sixteen nodes, over any network.
#![tactic(auto)]

mod drawn;
mod fault;
mod memory;
mod parking;
mod system;

pub use drawn::Drawn;
pub use fault::{CreateFault, SystemFault};
pub use parking::Parking;
pub use refusals::{Layer, Refusal};
pub use system::{Sizes, System};
