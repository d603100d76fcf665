// Drawn answers are parked, and taken up by node and place.
ghost use Rattle.std.specs.Prelude.{IfErr, IfOk};
ghost use Rattle.protocol.specs.Moments.{draw, finish, put_back};
ghost use Rattle.system.specs.Faults.{refusal_of};
ghost use Rattle.system.specs.Systems.{moment};
ghost use Rattle.session.specs.Results.{Tells};
ghost use Rattle.session.specs.TakenUp.{TakenUp, NoneTakenUp};

use super::Session;
use network::Network;
use script::Answer;
use system::{Drawn, Parking, System, SystemFault};

// The token of a parked place, or why there is none.
// Over the two fields, since a session's invariant is broken until the memory is told of the token.
fn take_up<N: Network>(
    system: &System<N>,
    tokens: &mut Parking,
    node: u64,
    place: u64,
) -> Result<Drawn, SystemFault>
    ensures token { IfOk result (λ drawn. TakenUp tokens.old tokens.new node place drawn) }
    ensures none { IfErr result (λ fault. NoneTakenUp (moment N.Network system.now) tokens.old tokens.new node place (refusal_of fault)) }
{
    tokens
        .take_up(node, place)
        .ok_or_else(|| system.undrawn(node))
}

impl<N: Network> Session<N> {
    pub(super) fn draw(&mut self, node: u64) -> Result<Answer, SystemFault>
        ensures { Tells N.Network self.old.system (draw node) result self.new.system }
    {
        let (token, answer) = self.system.draw(node)?;
        self.parking.park(token);
        Ok(Answer::Drawn {
            place: answer.place as u64,
            address: u64::from(answer.read.address),
            word: answer.word,
            frame: answer.read.continuation.frame,
            instruction: answer.read.continuation.instruction,
        })
    }

    // Finish and put back differ in one call; a closure for it, with its contract, is longer than either.
    pub(super) fn finish(&mut self, node: u64, place: u64) -> Result<Answer, SystemFault>
        ensures { Tells N.Network self.old.system (finish node place) result self.new.system }
    {
        let token = take_up(&self.system, &mut self.parking, node, place)?;
        self.system.finish(token)?;
        Ok(Answer::Done)
    }

    pub(super) fn put_back(&mut self, node: u64, place: u64) -> Result<Answer, SystemFault>
        ensures { Tells N.Network self.old.system (put_back node place) result self.new.system }
    {
        let token = take_up(&self.system, &mut self.parking, node, place)?;
        self.system.put_back(token)?;
        Ok(Answer::Done)
    }
}
