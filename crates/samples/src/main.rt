// The nine calls on two boards over the pool, and then an array of samples.
#![tactic(auto)]

mod array_walk;
mod calls;
mod walk;

fn run(rt: &HostRuntime) -> anyhow::Result<()> {
    calls::walk(rt)?;
    array_walk::walk(rt)
}

fn main(rt: HostRuntime) -> anyhow::Result<()> {
    run(&rt)
}
