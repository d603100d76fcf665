// Boards and homes over a network.
ghost use Rattle.std.specs.Prelude.{◌≤◌};

use crate::memory::Memory;
use lines::Board;

// The nodes at work and the cells of each; the end of the arrays created so far.
// Both are 0 before the start, and no Option: the memory's model says "not started" by 0 nodes, and its cells are 0 then.
// A call borrows the boards before it takes one of them: the check has no plan for `self.boards[i].draw()`.
#[derive(Drop)]
pub struct System<N> {
    network: N,
    nodes: usize,
    cells: usize,
    boards: [Board; 16],
    memory: Memory,
    end: usize,
    ghost few_nodes: { nodes ≤ 16 },
    ghost few_cells: { cells ≤ 64 },
    ghost some_cells: { (1 ≤ nodes → 1 ≤ cells) },
    ghost ended: { end ≤ 1024 },
}

mod acts;
mod arrays;
mod checks;
mod deliveries;
mod drawing;
mod offers;
mod requests;
mod start;
mod undrawn;

pub use start::Sizes;
