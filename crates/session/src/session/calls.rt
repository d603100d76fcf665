// The calls that draw nothing, each with its answer.
ghost use Rattle.protocol.specs.Moments.{start, read, write, act, deliver, create};
ghost use Rattle.system.specs.Systems.{asked};
ghost use Rattle.session.specs.Results.{Tells};

use super::Session;
use lines::Continuation;
use network::Network;
use script::Answer;
use system::{Sizes, SystemFault};

impl<N: Network> Session<N> {
    pub(super) fn start(&mut self, sizes: Sizes) -> Result<Answer, SystemFault>
        ensures { Tells N.Network self.old.system (start sizes.nodes sizes.lines sizes.cells) result self.new.system }
    {
        self.system.start(sizes)?;
        Ok(Answer::Done)
    }

    pub(super) fn read(
        &mut self,
        node: u64,
        address: u64,
        continuation: Continuation,
    ) -> Result<Answer, SystemFault>
        ensures { Tells N.Network self.old.system (read node (asked address continuation.frame continuation.instruction)) result self.new.system }
    {
        let place = self.system.read(node, address, continuation)?;
        Ok(Answer::Place(place as u64))
    }

    pub(super) fn write(
        &mut self,
        node: u64,
        address: u64,
        word: u64,
    ) -> Result<Answer, SystemFault>
        ensures { Tells N.Network self.old.system (write node address word) result self.new.system }
    {
        self.system.write(node, address, word)?;
        Ok(Answer::Done)
    }

    pub(super) fn act(&mut self, node: u64, pick: u64) -> Result<Answer, SystemFault>
        ensures { Tells N.Network self.old.system (act node pick) result self.new.system }
    {
        let readied = self.system.act(node, pick)?;
        Ok(Answer::Ready(readied as u64))
    }

    pub(super) fn deliver(&mut self, pick: u64) -> Result<Answer, SystemFault>
        ensures { Tells N.Network self.old.system (deliver pick) result self.new.system }
    {
        let readied = self.system.deliver(pick)?;
        Ok(Answer::Ready(readied as u64))
    }

    pub(super) fn create(&mut self, kind: u64, length: u64) -> Result<Answer, SystemFault>
        ensures { Tells N.Network self.old.system (create kind length) result self.new.system }
    {
        let base = self.system.create(kind, length)?;
        Ok(Answer::Base(base as u64))
    }
}
