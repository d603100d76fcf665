// A system is made, and started.
ghost use Rattle.std.specs.Prelude.{◌≡◌, ◌||◌, [], length, nat_lt};
ghost use Rattle.protocol.specs.Moments.{start, started};
ghost use Rattle.protocol.specs.Steps.{Reached, outside};
ghost use Rattle.system.specs.Systems.{moment, answered};
ghost use Rattle.system.specs.Through.{Called};

use super::System;
use crate::fault::SystemFault;
use crate::memory::Memory;
use lines::Board;
use network::Network;

// Whether a number is not within 1 to `most`.
pub(super) fn outside(most: u64, number: u64) -> bool
    ensures { result ≡ outside most number }
{
    !(1..=most).contains(&number)
}

// How large a memory is to be: its nodes, and the lines and the cells of each.
#[derive(Clone, Copy)]
pub struct Sizes {
    pub nodes: u64,
    pub lines: u64,
    pub cells: u64,
}

impl Sizes {
    fn are_bad(self) -> bool
        ensures { result ≡ (outside 16 self.nodes || (outside 16 self.lines || outside 64 self.cells)) }
    {
        outside(16, self.nodes) || outside(16, self.lines) || outside(64, self.cells)
    }
}

// Whether a network cannot serve: it holds something, or may hold too little.
fn unfit<N: Network>(network: &N) -> bool
    ensures { result ≡ (nat_lt 0 (length (N.Network.bag network.now)) || nat_lt (N.Network.bound network.now) 2) }
{
    network.count() > 0 || network.limit() < 2
}

impl<N: Network> System<N> {
    // An unused memory over a network, whatever that holds.
    pub fn new(network: N) -> System<N>
        ensures reached { Reached [] (moment N.Network result) }
        ensures network { result.network ≡ network }
    {
        let board = Board::new(1).unwrap();
        System {
            network,
            nodes: 0,
            cells: 0,
            boards: [board; 16],
            memory: Memory::undefined(),
            end: 0,
        }
    }

    // Puts 1 to 16 nodes to work, each with 1 to 16 lines and 1 to 64 cells.
    pub fn start(&mut self, sizes: Sizes) -> Result<(), SystemFault>
        ensures { Called N.Network self.old (start sizes.nodes sizes.lines sizes.cells) (answered (start sizes.nodes sizes.lines sizes.cells) (λ _. started sizes.nodes sizes.lines sizes.cells) result) self.new }
    {
        if self.nodes != 0 {
            return Err(SystemFault::StartedAlready);
        }
        if sizes.are_bad() {
            return Err(SystemFault::BadSize);
        }
        if unfit(&self.network) {
            return Err(SystemFault::NetworkUnfit);
        }
        // A u64 goes into no usize by From, and these are small by now: a try_from could fail on nothing. So in `create`.
        let board = Board::new(sizes.lines as usize).unwrap();
        self.nodes = sizes.nodes as usize;
        self.cells = sizes.cells as usize;
        self.boards = [board; 16];
        self.memory = Memory::undefined();
        self.end = 0;
        Ok(())
    }
}
