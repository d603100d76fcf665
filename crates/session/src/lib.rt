// A session: lines of a script are calls on a memory, over any network.
#![tactic(auto)]

mod fault;
mod session;

pub use fault::SessionFault;
pub use session::Session;
