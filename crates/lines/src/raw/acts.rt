// Commands are acted on.
ghost use Rattle.std.specs.Prelude.{◌≡◌, ◌<◌, [], ◌∷◌, length, Some};
ghost use Rattle.bounded.specs.Listed.{listed};
ghost use Rattle.std.specs.List.{slice_get};
ghost use Rattle.std.specs.Result.{result_map_both};
ghost use Rattle.lines.specs.Facts.{Facts};
ghost use Rattle.lines.specs.Model.{reading, writing, writes as write_commands, claimed, used, readying, read_claims, act_on, acted};
ghost use Rattle.lines.specs.Plain.{plain_command, plain_read, plain_acted, plain_refusal};
ghost use Rattle.lines.specs.Raws.{raw_tables};

use super::RawBoard;
use super::access::{append, put};
use super::lines::find;
use crate::types::{ActFault, Acted, Command, Found, Line, LineFault, Outgoing, Place, Read, Turn};
use network::Address;

impl Command {
    // How many writes it is, 1 or 0.
    fn writes(self) -> usize
        ensures { result ≡ write_commands (plain_command self ∷ []) }
    {
        match self {
            Command::Read(_) => 0,
            Command::Write(_, _) => 1,
        }
    }
}

impl RawBoard {
    // Command `pick` is used up.
    #[tactic(auto, using(crate::proofs::Commands::less))]
    fn use_up(&mut self, pick: usize)
        ensures { raw_tables self.new ≡ used (raw_tables self.old) pick }
    {
        if let Some(command) = self.commands.remove(pick) {
            self.writes -= command.writes();
        }
    }

    // The place becomes ready, behind the others. (With its read, that the caller has from a match already.)
    pub(super) fn make_ready(&mut self, place: usize, read: Read, word: u64)
        requires { length (listed self.old.order) < 32 }
        ensures { raw_tables self.new ≡ readying (raw_tables self.old) place (plain_read read) word }
    {
        put(&mut self.places, place, Place::Ready(read, word));
        append(&mut self.order, place);
    }

    // A read with no line claims one, and asks the home of its address.
    fn ask(&mut self, turn: Turn, place: usize, read: Read) -> Result<Acted, ActFault>
        ensures answer { result_map_both plain_acted plain_refusal result ≡ (read_claims turn.node.index (raw_tables self.old) turn.pick place (plain_read read) turn.traffic.load turn.traffic.limit (claimed (raw_tables self.old))).answer }
        ensures after { raw_tables self.new ≡ (read_claims turn.node.index (raw_tables self.old) turn.pick place (plain_read read) turn.traffic.load turn.traffic.limit (claimed (raw_tables self.old))).after }
    {
        let i = self
            .claim()
            .ok_or(LineFault::EveryLineWaits(turn.node, read.address))?;
        // There is to be room for the reply too.
        if turn.traffic.room() < 2 {
            return Err(ActFault::NetworkFull(read.address));
        }
        self.take_line(i, Line::waiting(read.address, place));
        put(&mut self.places, place, Place::Deferred(read));
        self.use_up(turn.pick);
        Ok(Acted {
            readied: 0,
            sends: Some(Outgoing::Read(read.address)),
        })
    }

    // The command is the read at `place`.
    fn act_read(&mut self, turn: Turn, place: usize) -> Result<Acted, ActFault>
        requires facts { Facts (raw_tables self.old) }
        requires named { slice_get (raw_tables self.old).commands turn.pick ≡ Some (reading place) }
        ensures answer { result_map_both plain_acted plain_refusal result ≡ (act_on turn.node.index (raw_tables self.old) turn.pick turn.traffic.load turn.traffic.limit (Some (reading place))).answer }
        ensures after { raw_tables self.new ≡ (act_on turn.node.index (raw_tables self.old) turn.pick turn.traffic.load turn.traffic.limit (Some (reading place))).after }
    {
        // A read command names a held place.
        let Place::Held(read) = self.place(place) else {
            return Err(ActFault::NoSuchCommand);
        };
        match find(self.lines.as_slice(), read.address) {
            Some(Found::Holds(word)) => {
                self.make_ready(place, read, word);
                self.use_up(turn.pick);
                Ok(Acted {
                    readied: 1,
                    sends: None,
                })
            }
            Some(Found::Waits(i)) => {
                self.join(i, place);
                put(&mut self.places, place, Place::Deferred(read));
                self.use_up(turn.pick);
                Ok(Acted {
                    readied: 0,
                    sends: None,
                })
            }
            None => self.ask(turn, place, read),
        }
    }

    // The command is a write.
    fn act_write(&mut self, turn: Turn, address: Address, word: u64) -> Result<Acted, ActFault>
        requires { Facts (raw_tables self.old) }
        ensures answer { result_map_both plain_acted plain_refusal result ≡ (act_on turn.node.index (raw_tables self.old) turn.pick turn.traffic.load turn.traffic.limit (Some (writing address.index word))).answer }
        ensures after { raw_tables self.new ≡ (act_on turn.node.index (raw_tables self.old) turn.pick turn.traffic.load turn.traffic.limit (Some (writing address.index word))).after }
    {
        let readied = match find(self.lines.as_slice(), address) {
            Some(Found::Holds(_)) => {
                self.use_up(turn.pick);
                return Err(ActFault::from(LineFault::WrittenTwice(turn.node, address)));
            }
            _ if turn.traffic.room() == 0 => return Err(ActFault::NetworkFull(address)),
            Some(Found::Waits(i)) => self.fill(i, address, word),
            None => {
                self.fill_new(address, word);
                0
            }
        };
        self.use_up(turn.pick);
        Ok(Acted {
            readied,
            sends: Some(Outgoing::Write(address, word)),
        })
    }

    // Acts on the turn's command.
    #[tactic(auto, using(crate::proofs::Mapped::mapped))]
    pub(crate) fn act(&mut self, turn: Turn) -> Result<Acted, ActFault>
        requires { Facts (raw_tables self.old) }
        ensures answer { result_map_both plain_acted plain_refusal result ≡ (acted turn.node.index (raw_tables self.old) turn.pick turn.traffic.load turn.traffic.limit).answer }
        ensures after { raw_tables self.new ≡ (acted turn.node.index (raw_tables self.old) turn.pick turn.traffic.load turn.traffic.limit).after }
    {
        let command = self.commands.get(turn.pick).ok_or(ActFault::NoSuchCommand)?;
        match command {
            Command::Read(place) => self.act_read(turn, place),
            Command::Write(address, word) => self.act_write(turn, address, word),
        }
    }
}
