// What both walks have: a system over the pool, and where its answers are shown.
use network::Pool;
use system::{Refusal, System};

#[derive(Drop)]
pub(crate) struct Walk<'a> {
    pub(crate) rt: &'a HostRuntime,
    pub(crate) system: System<Pool>,
}

impl<'a> Walk<'a> {
    pub(crate) fn new(rt: &'a HostRuntime) -> Walk<'a> {
        Walk {
            rt,
            system: System::new(Pool::new()),
        }
    }

    pub(crate) fn refused(&self, fault: impl Into<Refusal>) -> anyhow::Result<()> {
        let refusal: Refusal = fault.into();
        println!(self.rt; "{refusal}")?;
        Ok(())
    }
}
