// Runs the edges of the script that no theorem states: scripts parted by a separator byte, each on an unused memory
// over the pool, with an empty line after the answers of each.
#![tactic(auto)]

mod input;

use input::{NEXT, Script};
use network::Pool;
use serving::serve;
use std::io;
use std::io::{BufRead, BufReader, BufWriter, Read, Write};

const CHUNK: usize = 4096;

// All scripts of an input, of which each ends with a separator.
fn run_all<R: BufRead, W: Write>(input: &mut R, out: &mut W) -> io::Result<()> {
    // Every loop is proved to end, and nothing says that an input does.
    for _script in 0..u64::MAX {
        if input.fill_buf()?.is_empty() {
            break;
        }
        serve(Pool::new(), &mut Script::new(input), out)?;
        out.write_all(b"\n")?;
    }
    Ok(())
}

fn run(rt: &HostRuntime) -> anyhow::Result<()> {
    // One more separator stands at the end, so that a last script with no bytes is run too.
    let input = rt.stdin().chain(&[NEXT][..]);
    let mut input = BufReader::with_capacity(rt.alloc(), CHUNK, input)?;
    let mut out = BufWriter::new(rt.alloc(), rt.stdout())?;
    run_all(&mut input, &mut out)?;
    out.flush()?;
    Ok(())
}

fn main(rt: HostRuntime) -> anyhow::Result<()> {
    run(&rt)
}
