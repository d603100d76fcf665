// Walks one cell's life over each network: each message as it arrives, and the cell after it.
#![tactic(auto)]

mod life;
mod limits;
mod stack;

use life::{blank, walk};
use network::{Delay, Lanes, Pool, Twin};
use stack::Stack;

fn run(rt: &HostRuntime) -> anyhow::Result<()> {
    walk(rt, "the pool", Pool::new())?;
    walk(rt, "the lanes", Lanes::new())?;
    let twin = Twin::new(Pool::new(), Lanes::new());
    walk(rt, "a twin of pool and lanes", twin)?;
    walk(rt, "a delay over the pool", Delay::new(Pool::new()))?;
    let pile = Delay::new(Twin::new(Pool::new(), Lanes::new()));
    walk(rt, "a delay over a twin of pool and lanes", pile)?;
    let stack = Stack::new(blank()?);
    walk(rt, "a stack, written outside the network crate", stack)
}

fn main(rt: HostRuntime) -> anyhow::Result<()> {
    run(&rt)
}
