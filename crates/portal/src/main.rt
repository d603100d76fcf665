// Reads a script from standard input, and prints an answer line for each of its lines.
#![tactic(auto)]

use anyhow::anyhow;
use network::{Delay, Lanes, Network, Pool, Twin};
use std::env;
use std::io::{BufWriter, Write};

fn help(rt: &HostRuntime) -> anyhow::Result<()> {
    println!(rt; "portal [NETWORK]: runs a script from standard input on a write-once memory.")?;
    println!(rt; "Each line is a call; an answer line is printed for each.")?;
    println!(rt; "  S,nodes,lines,cells            start")?;
    println!(rt; "  R,node,address,frame,instr     read; answers the place")?;
    println!(rt; "  W,node,address,word            write")?;
    println!(rt; "  A,node,pick                    act; answers the places made ready")?;
    println!(rt; "  D,pick                         deliver; answers the places made ready")?;
    println!(rt; "  T,node                         draw; answers place,address,word,frame,instr")?;
    println!(rt; "  F,node,place  P,node,place     finish, put back")?;
    println!(rt; "  C,kind,length                  create; answers the base")?;
    println!(rt; "NETWORK is pool (if none is named), lanes, twin(pool,lanes), delay(pool),")?;
    println!(rt; "delay(lanes) or delay(twin(pool,lanes)).")?;
    Ok(())
}

fn serve<N: Network + Drop>(rt: &HostRuntime, network: N) -> anyhow::Result<()> {
    let mut out = BufWriter::new(rt.alloc(), rt.stdout())?;
    serving::serve(network, &mut rt.stdin(), &mut out)?;
    out.flush()?;
    Ok(())
}

fn run_over(rt: &HostRuntime, name: &str) -> anyhow::Result<()> {
    match name {
        "--help" => help(rt),
        "pool" => serve(rt, Pool::new()),
        "lanes" => serve(rt, Lanes::new()),
        "twin(pool,lanes)" => serve(rt, Twin::new(Pool::new(), Lanes::new())),
        "delay(pool)" => serve(rt, Delay::new(Pool::new())),
        "delay(lanes)" => serve(rt, Delay::new(Lanes::new())),
        "delay(twin(pool,lanes))" => { serve(rt, Delay::new(Twin::new(Pool::new(), Lanes::new()))) }
        _ => Err(anyhow!("no such network: portal --help lists them")),
    }
}

fn run(rt: &HostRuntime) -> anyhow::Result<()> {
    let mut args = env::args(rt)?;
    let _program = args.next();
    run_over(rt, args.next().as_deref().unwrap_or("pool"))
}

fn main(rt: HostRuntime) -> anyhow::Result<()> {
    run(&rt)
}
