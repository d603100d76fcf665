// Messages between boards, and the networks that carry them.
#![tactic(auto)]

mod delay;
mod lanes;
mod message;
mod network;
mod pool;
mod twin;

pub use bounded::Full;
pub use delay::Delay;
pub use lanes::Lanes;
pub use message::{Address, Kind, Message, Node, Number};
pub use network::Network;
pub use pool::Pool;
pub use twin::Twin;
