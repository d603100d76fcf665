// The cells of all homes, by address, and how many nodes wait at them.
ghost use Rattle.std.specs.Prelude.{◌≡◌, ℕ, ◌≤◌, length, replicate, sum_by, slice_index_or, slice_set};
ghost use Rattle.network.specs.Messages.{plain};
ghost use Rattle.home.specs.declared.cell.Cell.TheVariants.{Undefined};
ghost use Rattle.home.specs.Cells.{after, answer, told};
ghost use Rattle.protocol.specs.Moments.{waiters};

use home::{Cell, Replies, WrittenTwice};
use network::Message;

#[derive(Clone, Copy)]
pub(crate) struct Memory {
    cells: [Cell; 1024],
    waiting: usize,
    ghost whole: { length cells ≡ 1024 },
    ghost counted: { waiting ≡ sum_by waiters cells },
    ghost few: { ((a : ℕ) → waiters (slice_index_or cells a Undefined) ≤ 16) },
}

// The nodes that wait at a cell.
fn waiters(cell: Cell) -> usize
    ensures value { result ≡ waiters cell }
    ensures few { result ≤ 16 }
{
    match cell {
        Cell::Waiting(readers) => readers.len(),
        _ => 0,
    }
}

impl Memory {
    pub(crate) fn undefined() -> Memory
        ensures { result.cells ≡ replicate 1024 Undefined }
    {
        Memory {
            cells: [Cell::Undefined; 1024],
            waiting: 0,
        }
    }

    #[tactic(auto, using(crate::proofs::Waiting::few_in_all))]
    pub(crate) fn waiting(&self) -> usize
        ensures value { result ≡ sum_by waiters self.now.cells }
        ensures few { result ≤ 16384 }
    {
        self.waiting
    }

    // A message comes to the home of its address.
    #[tactic(auto, using(crate::proofs::Waiting::few_in_all))]
    pub(crate) fn receive(&mut self, message: Message) -> Result<Replies, WrittenTwice>
        ensures answer { told result ≡ answer (slice_index_or self.old.cells message.address.index Undefined) (plain message) }
        ensures cells { self.new.cells ≡ slice_set self.old.cells message.address.index (after (slice_index_or self.old.cells message.address.index Undefined) (plain message)) }
    {
        let address = message.address().index();
        let mut cell = self.cells[address];
        self.waiting -= waiters(cell);
        let answer = cell.receive(message);
        self.cells[address] = cell;
        self.waiting += waiters(cell);
        answer
    }
}
