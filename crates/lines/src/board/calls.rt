// The calls on a board. A raw call says what becomes of the tables; that the facts stay is shown here, once
// for each call, of the model: inside the raw one each return would owe it.
ghost use Rattle.std.specs.Prelude.{◌≡◌, is_ok, if◌then◌else◌, Some, None, nat_le};
ghost use Rattle.std.specs.Option.{option_map};
ghost use Rattle.std.specs.Result.{result_ok, result_map_both as both};
ghost use Rattle.lines.specs.Boards.{tables};
ghost use Rattle.lines.specs.Model.{start, place_at, free_place, given, may_write, written, acted, replied, first_ready, drawing, is_drawn, finished, returned};
ghost use Rattle.lines.specs.Plain.{plain_read, plain_answer, plain_acted, plain_refusal};

use super::Board;
use crate::raw::RawBoard;
use crate::types::{
    ActFault, Acted, Answer, NotDrawn, PlacesTaken, Read, Traffic, Turn, WritesHeld,
};
use network::{Address, Node};

impl Board {
    // A board with 1 to 16 lines, all empty.
    pub fn new(lines: usize) -> Option<Board>
        ensures { option_map tables result ≡ (if nat_le 1 lines then (if nat_le lines 16 then Some (start lines) else None) else None) }
    {
        if lines == 0 || lines > 16 {
            return None;
        }
        Some(Board {
            raw: RawBoard::new(lines),
        })
    }

    // The read is held, and its place given out; the next command is to look it up.
    pub fn read(&mut self, read: Read) -> Result<usize, PlacesTaken>
        ensures answer { result_ok result ≡ free_place (tables self.old) }
        ensures after { tables self.new ≡ given (tables self.old) (plain_read read) (free_place (tables self.old)) }
    {
        self.raw.read(read)
    }

    // The write becomes a command.
    pub fn write(&mut self, address: Address, word: u64) -> Result<(), WritesHeld>
        ensures answer { is_ok result ≡ may_write (tables self.old) }
        ensures after { tables self.new ≡ (if may_write (tables self.old) then written (tables self.old) address.index word else tables self.old) }
    {
        self.raw.write(address, word)
    }

    // Acts on command `pick`, the oldest being 0, while the network has such traffic.
    pub fn act(&mut self, node: Node, pick: usize, traffic: Traffic) -> Result<Acted, ActFault>
        ensures answer { both plain_acted plain_refusal result ≡ (acted node.index (tables self.old) pick traffic.load traffic.limit).answer }
        ensures after { tables self.new ≡ (acted node.index (tables self.old) pick traffic.load traffic.limit).after }
    {
        self.raw.act(Turn {
            node,
            pick,
            traffic,
        })
    }

    // The word of an address comes in. Answers how many places it made ready.
    pub fn reply(&mut self, address: Address, word: u64) -> usize
        ensures answer { result ≡ (replied (tables self.old) address.index word).answer }
        ensures after { tables self.new ≡ (replied (tables self.old) address.index word).after }
    {
        self.raw.reply(address, word)
    }

    // The place longest ready is drawn.
    pub fn draw(&mut self) -> Option<Answer>
        ensures answer { option_map plain_answer result ≡ first_ready (tables self.old) (tables self.old).order }
        ensures after { tables self.new ≡ drawing (tables self.old) (tables self.old).order }
    {
        self.raw.draw()
    }

    // A drawn place becomes free.
    pub fn finish(&mut self, place: usize) -> Result<(), NotDrawn>
        ensures answer { is_ok result ≡ is_drawn (place_at (tables self.old) place) }
        ensures after { tables self.new ≡ finished (tables self.old) place }
    {
        self.raw.finish(place)
    }

    // A drawn place becomes ready again, behind the others.
    pub fn put_back(&mut self, place: usize) -> Result<(), NotDrawn>
        ensures answer { is_ok result ≡ is_drawn (place_at (tables self.old) place) }
        ensures after { tables self.new ≡ returned (tables self.old) place }
    {
        self.raw.put_back(place)
    }
}
