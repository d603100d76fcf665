// Ready reads are drawn, and finished or put back.
ghost use Rattle.std.specs.Prelude.{◌≡◌, IfOk};
ghost use Rattle.lines.specs.Plain.{plain_read};
ghost use Rattle.protocol.specs.Moments.{draw, finish, put_back, at, drew, finished, returned};
ghost use Rattle.system.specs.Systems.{answered};
ghost use Rattle.system.specs.Through.{Called};

use super::System;
use crate::drawn::Drawn;
use crate::fault::SystemFault;
use lines::Answer;
use network::Network;

impl<N: Network> System<N> {
    // Draws at a node what has been ready there longest. The token finishes that place, or puts it back.
    pub fn draw(&mut self, node: u64) -> Result<(Drawn, Answer), SystemFault>
        ensures call { Called N.Network self.old (draw node) (answered (draw node) (λ x. at node (drew x.1.place (plain_read x.1.read) x.1.word)) result) self.new }
        ensures token { IfOk result (λ x. (x.0.node.index ≡ node) × (x.0.place ≡ x.1.place)) }
    {
        let at = self.check_node(node)?;
        let boards = &mut self.boards;
        let answer = boards[at.index()]
            .draw()
            .ok_or(SystemFault::NothingReady(node))?;
        Ok((Drawn::new(at, answer.place), answer))
    }

    // Ends the read of a drawn place, which is free then.
    pub fn finish(&mut self, drawn: Drawn) -> Result<(), SystemFault>
        ensures { Called N.Network self.old (finish drawn.node.index drawn.place) (answered (finish drawn.node.index drawn.place) (λ _. at drawn.node.index (finished drawn.place)) result) self.new }
    {
        let Drawn { node, place } = drawn;
        self.check_node(u64::from(node))?;
        let boards = &mut self.boards;
        boards[node.index()]
            .finish(place)
            .map_err(|_| SystemFault::NotDrawn(u64::from(node)))
    }

    // Makes a drawn place ready again, behind the others.
    // (It differs from a finish in one word; one function of both would need a contract on its closure, longer than this.)
    pub fn put_back(&mut self, drawn: Drawn) -> Result<(), SystemFault>
        ensures { Called N.Network self.old (put_back drawn.node.index drawn.place) (answered (put_back drawn.node.index drawn.place) (λ _. at drawn.node.index (returned drawn.place)) result) self.new }
    {
        let Drawn { node, place } = drawn;
        self.check_node(u64::from(node))?;
        let boards = &mut self.boards;
        boards[node.index()]
            .put_back(place)
            .map_err(|_| SystemFault::NotDrawn(u64::from(node)))
    }
}
