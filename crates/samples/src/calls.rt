// The nine calls on two boards over the pool: every call with its answer.
use crate::walk::Walk;
use lines::{Answer, Continuation};
use network::Pool;
use std::fmt::Display;
use system::{Drawn, Sizes, System, SystemFault};

// The calls of the list; a finish and a put back are of what was drawn last.
#[derive(Clone, Copy)]
enum Call {
    Start(u64, u64, u64),
    Read(u64, u64, u32, u32),
    Write(u64, u64, u64),
    Act(u64, u64),
    Deliver(u64),
    DrawAndFinish(u64),
    DrawAndPutBack(u64),
    Create(u64, u64),
}

const CALLS: [Call; 20] = [
    Call::Read(0, 2, 7, 1),
    Call::Start(2, 1, 2),
    Call::Create(1, 3),
    Call::Read(0, 2, 7, 1),
    Call::Read(0, 2, 7, 2),
    Call::Act(0, 0),
    Call::Act(0, 0),
    Call::Deliver(0),
    Call::Write(1, 2, 40),
    Call::Act(1, 0),
    Call::Deliver(0),
    Call::Deliver(0),
    Call::DrawAndPutBack(0),
    Call::DrawAndFinish(0),
    Call::DrawAndFinish(0),
    Call::DrawAndFinish(0),
    Call::Write(0, 2, 41),
    Call::Act(0, 0),
    Call::Deliver(0),
    Call::Read(0, 4, 7, 3),
];

impl Walk<'_> {
    fn told<T: Display + Drop>(&self, answer: Result<T, SystemFault>) -> anyhow::Result<()> {
        match answer {
            Ok(answer) => {
                println!(self.rt; "{answer}")?;
                Ok(())
            }
            Err(fault) => self.refused(fault),
        }
    }

    fn show_answer(&self, answer: Answer) -> anyhow::Result<()> {
        let Answer { place, read, word } = answer;
        let Continuation { frame, instruction } = read.continuation;
        println!(self.rt;
            "place {place}, address {}, word {word}, frame {frame}, instruction {instruction}",
            read.address
        )?;
        Ok(())
    }

    // A drawn answer is spent before anything else can fail: the compiler asks for it.
    fn draw<F: FnOnce(&mut System<Pool>, Drawn) -> Result<(), SystemFault>>(
        &mut self,
        node: u64,
        name: &str,
        spend: F,
    ) -> anyhow::Result<()>
        requires { F.IsAlwaysCallable spend }
    {
        print!(self.rt; "  draw {node}: ")?;
        match self.system.draw(node) {
            Ok((drawn, answer)) => {
                let spent = spend(&mut self.system, drawn);
                self.show_answer(answer)?;
                print!(self.rt; "  {name}: ")?;
                self.told(spent.map(|()| "done"))
            }
            Err(fault) => self.refused(fault),
        }
    }

    fn make(&mut self, call: Call) -> anyhow::Result<()> {
        match call {
            Call::Start(nodes, lines, cells) => {
                print!(self.rt; "  start {nodes} {lines} {cells}: ")?;
                let sizes = Sizes {
                    nodes,
                    lines,
                    cells,
                };
                let started = self.system.start(sizes);
                self.told(started.map(|()| "done"))
            }
            Call::Read(node, address, frame, instruction) => {
                print!(self.rt; "  read {node} {address} {frame} {instruction}: ")?;
                let continuation = Continuation { frame, instruction };
                let read = self.system.read(node, address, continuation);
                self.told(read)
            }
            Call::Write(node, address, word) => {
                print!(self.rt; "  write {node} {address} {word}: ")?;
                let written = self.system.write(node, address, word);
                self.told(written.map(|()| "done"))
            }
            Call::Act(node, pick) => {
                print!(self.rt; "  act {node} {pick}: ")?;
                let acted = self.system.act(node, pick);
                self.told(acted)
            }
            Call::Deliver(pick) => {
                print!(self.rt; "  deliver {pick}: ")?;
                let delivered = self.system.deliver(pick);
                self.told(delivered)
            }
            Call::DrawAndFinish(node) => {
                self.draw(node, "finish", |system, drawn| system.finish(drawn))
            }
            Call::DrawAndPutBack(node) => {
                self.draw(node, "put back", |system, drawn| system.put_back(drawn))
            }
            Call::Create(kind, length) => {
                print!(self.rt; "  create {kind} {length}: ")?;
                let created = self.system.create(kind, length);
                self.told(created)
            }
        }
    }
}

pub(crate) fn walk(rt: &HostRuntime) -> anyhow::Result<()> {
    println!(rt; "The nine calls on two boards over the pool:")?;
    let mut walk = Walk::new(rt);
    for call in CALLS {
        walk.make(call)?;
    }
    Ok(())
}
