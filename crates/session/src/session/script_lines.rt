// A line of a script is the call that it writes.
ghost use Rattle.script.specs.Readers.{told};
ghost use Rattle.session.specs.Results.{Tells, whole};
ghost use Rattle.session.specs.Sessions.{call_of, Answers, KeepsLaw};

use super::Session;
use crate::fault::SessionFault;
use lines::Continuation;
use network::Network;
use refusals::Refusal;
use script::{Answer, Call, Line};
use system::{Sizes, SystemFault};

impl<N: Network> Session<N> {
    fn call(&mut self, call: Call) -> Result<Answer, SystemFault>
        ensures { Tells N.Network self.old.system (call_of call) result self.new.system }
    {
        match call {
            Call::Start {
                nodes,
                lines,
                cells,
            } => self.start(Sizes {
                nodes,
                lines,
                cells,
            }),
            Call::Read {
                node,
                address,
                frame,
                instruction,
            } => {
                let continuation = Continuation { frame, instruction };
                self.read(node, address, continuation)
            }
            Call::Write {
                node,
                address,
                word,
            } => self.write(node, address, word),
            Call::Act { node, pick } => self.act(node, pick),
            Call::Deliver { pick } => self.deliver(pick),
            Call::Draw { node } => self.draw(node),
            Call::Finish { node, place } => self.finish(node, place),
            Call::PutBack { node, place } => self.put_back(node, place),
            Call::Create { kind, length } => self.create(kind, length),
        }
    }

    fn run(&mut self, line: Line<'_>) -> Result<Answer, SessionFault>
        ensures { Answers N.Network self.old (told line.entry) (whole result) self.new }
    {
        let call = line.call()?;
        Ok(self.call(call)?)
    }

    // Makes the call that the line writes, and tells its answer. A line that writes none is refused with 6.
    pub fn line(&mut self, line: Line<'_>) -> Answer
        ensures answer { Answers N.Network self.old (told line.entry) result self.new }
        ensures law { KeepsLaw N.Network self.old.system self.new.system }
    {
        self.run(line)
            .unwrap_or_else(|fault| Answer::Refused(Refusal::from(fault)))
    }
}
