// The places: reads come in, words go out.
ghost use Rattle.std.specs.Prelude.{◌≡◌, is_ok, if◌then◌else◌};
ghost use Rattle.std.specs.Option.{option_map};
ghost use Rattle.std.specs.Result.{result_ok};
ghost use Rattle.lines.specs.Facts.{Facts};
ghost use Rattle.lines.specs.Model.{place_at, is_free, free_place, given, may_write, written, first_ready, drawing, is_drawn, finished, returned};
ghost use Rattle.lines.specs.Plain.{plain_read, plain_place, plain_answer};
ghost use Rattle.lines.specs.Raws.{raw_tables};

use super::RawBoard;
use super::access::{append, put};
use crate::types::{Answer, Command, NotDrawn, Place, PlacesTaken, Read, WritesHeld};
use network::Address;
use rounds::{Round, one_past};

const PLACES: usize = 32;

const WRITES: usize = 32;

impl Place {
    fn is_free(self) -> bool
        ensures { result ≡ is_free (plain_place self) }
    {
        matches!(self, Place::Free)
    }
}

impl RawBoard {
    // The first free place, counted up and round from one past the place last given.
    fn free_place(&self) -> Option<usize>
        ensures { result ≡ free_place (raw_tables self.now) }
    {
        Round::new(one_past(self.last, PLACES), PLACES).find(|&p| self.place(p).is_free())
    }

    #[tactic(auto, using(crate::proofs::Mapped::mapped, crate::proofs::Counts::writes_push))]
    pub(crate) fn read(&mut self, read: Read) -> Result<usize, PlacesTaken>
        requires { Facts (raw_tables self.old) }
        ensures answer { result_ok result ≡ free_place (raw_tables self.old) }
        ensures after { raw_tables self.new ≡ given (raw_tables self.old) (plain_read read) (free_place (raw_tables self.old)) }
    {
        let place = self.free_place().ok_or(PlacesTaken)?;
        put(&mut self.places, place, Place::Held(read));
        self.last = place;
        append(&mut self.commands, Command::Read(place));
        Ok(place)
    }

    fn may_write(&self) -> bool
        ensures { result ≡ may_write (raw_tables self.now) }
    {
        self.writes < WRITES
    }

    #[tactic(auto, using(crate::proofs::Mapped::mapped, crate::proofs::Counts::writes_push))]
    pub(crate) fn write(&mut self, address: Address, word: u64) -> Result<(), WritesHeld>
        requires { Facts (raw_tables self.old) }
        ensures answer { is_ok result ≡ may_write (raw_tables self.old) }
        ensures after { raw_tables self.new ≡ (if may_write (raw_tables self.old) then written (raw_tables self.old) address.index word else raw_tables self.old) }
    {
        if !self.may_write() {
            return Err(WritesHeld);
        }
        append(&mut self.commands, Command::Write(address, word));
        self.writes += 1;
        Ok(())
    }

    pub(crate) fn draw(&mut self) -> Option<Answer>
        requires { Facts (raw_tables self.old) }
        ensures answer { option_map plain_answer result ≡ first_ready (raw_tables self.old) (raw_tables self.old).order }
        ensures after { raw_tables self.new ≡ drawing (raw_tables self.old) (raw_tables self.old).order }
    {
        let place = self.order.get(0)?;
        // The order names ready places only.
        let Place::Ready(read, word) = self.place(place) else {
            return None;
        };
        put(&mut self.places, place, Place::Drawn(read, word));
        self.order.remove(0);
        Some(Answer { place, read, word })
    }

    pub(crate) fn finish(&mut self, place: usize) -> Result<(), NotDrawn>
        ensures answer { is_ok result ≡ is_drawn (place_at (raw_tables self.old) place) }
        ensures after { raw_tables self.new ≡ finished (raw_tables self.old) place }
    {
        if !matches!(self.place(place), Place::Drawn(_, _)) {
            return Err(NotDrawn);
        }
        put(&mut self.places, place, Place::Free);
        Ok(())
    }

    pub(crate) fn put_back(&mut self, place: usize) -> Result<(), NotDrawn>
        requires { Facts (raw_tables self.old) }
        ensures answer { is_ok result ≡ is_drawn (place_at (raw_tables self.old) place) }
        ensures after { raw_tables self.new ≡ returned (raw_tables self.old) place }
    {
        let Place::Drawn(read, word) = self.place(place) else {
            return Err(NotDrawn);
        };
        self.make_ready(place, read, word);
        Ok(())
    }
}
