// An array of samples that are read before they are written, by other boards, and printed as they are drawn.
use crate::walk::Walk;
use anyhow::anyhow;
use array::{ArrayRef, open_answer, read_element, write_element};
use lines::{Answer, Continuation};
use network::Pool;
use system::{Sizes, SystemFault};

const SAMPLES: [f32; 4] = [0.5, -1.25, 3.0, 100.0];
// The most messages that are delivered in one go.
const DELIVERIES: u64 = 64;
// The most answers that a board has.
const PLACES: u8 = 32;

impl Walk<'_> {
    // Board 0 asks for every sample; the last index is one too far.
    fn read_all(&mut self, array: ArrayRef) -> anyhow::Result<()> {
        for index in 0..5u32 {
            print!(self.rt; "  board 0 reads sample {index}: ")?;
            let continuation = Continuation {
                frame: 1,
                instruction: index,
            };
            match read_element::<f32, Pool>(
                &mut self.system,
                0,
                array,
                u64::from(index),
                continuation,
            ) {
                Ok(place) => println!(self.rt; "place {place}")?,
                Err(why) => self.refused(why)?,
            }
            let _ = self.system.act(0, 0);
        }
        Ok(())
    }

    // The other boards write them.
    fn write_all(&mut self, array: ArrayRef) -> anyhow::Result<()> {
        for (index, sample) in SAMPLES.iter().enumerate() {
            let node = 1 + index as u64 % 2;
            print!(self.rt; "  board {node} writes sample {index}, {sample}: ")?;
            match write_element::<f32, Pool>(&mut self.system, node, array, index as u64, *sample) {
                Ok(()) => println!(self.rt; "done")?,
                Err(why) => self.refused(why)?,
            }
            let _ = self.system.act(node, 0);
        }
        Ok(())
    }

    fn deliver_all(&mut self) {
        for turn in 0..DELIVERIES {
            if self.system.deliver(3 * turn + 1).is_err() {
                break;
            }
        }
    }

    // The answer longest ready at board 0, finished.
    fn next(&mut self) -> Result<Answer, SystemFault> {
        let (drawn, answer) = self.system.draw(0)?;
        self.system.finish(drawn)?;
        Ok(answer)
    }

    fn draw_all(&mut self) -> anyhow::Result<()> {
        for _turn in 0..PLACES {
            let Ok(answer) = self.next() else {
                break;
            };
            let index = answer.read.continuation.instruction;
            print!(self.rt; "  board 0 draws sample {index}: ")?;
            match open_answer::<f32>(answer) {
                Ok(sample) => println!(self.rt; "{sample}")?,
                Err(why) => self.refused(why)?,
            }
        }
        Ok(())
    }
}

pub(crate) fn walk(rt: &HostRuntime) -> anyhow::Result<()> {
    println!(rt; "An array of samples on three boards over the pool:")?;
    let mut walk = Walk::new(rt);
    let sizes = Sizes {
        nodes: 3,
        lines: 4,
        cells: 4,
    };
    walk.system.start(sizes).map_err(|_| anyhow!("no start"))?;
    let array = match array::create::<f32, Pool>(&mut walk.system, 4) {
        Ok(array) => array,
        Err(why) => return walk.refused(why),
    };
    walk.read_all(array)?;
    walk.deliver_all();
    walk.write_all(array)?;
    walk.deliver_all();
    walk.draw_all()
}
