// Why a call is refused. What a board's lines and a home say is carried whole.
ghost use Rattle.std.specs.Prelude.{◌≡◌};
ghost use Rattle.system.specs.declared.fault.SystemFault.TheVariants.{Lines, Home};

use home::WrittenTwice;
use lines::LineFault;
use network::Address;

// Why no array is created.
#[derive(Clone, Copy, PartialEq, Eq)]
pub enum CreateFault {
    BadSize,
    NoRoom,
}

// The numbers are those of the node, and of the address, that the call named.
#[derive(Clone, Copy, PartialEq, Eq)]
pub enum SystemFault {
    NotStarted,
    StartedAlready,
    BadSize,
    NetworkUnfit,
    NoSuchNode(u64),
    NoSuchAddress(u64, u64),
    NoSuchCommand(u64),
    NotDrawn(u64),
    PlacesTaken(u64),
    WritesHeld(u64),
    NetworkFull(u64, Address),
    NothingInTransit,
    NothingReady(u64),
    Lines(LineFault),
    Home(WrittenTwice),
    Array(CreateFault),
}

impl From<LineFault> for SystemFault {
    ghost from_gives = { λ fault whole. whole ≡ Lines fault };

    fn from(fault: LineFault) -> SystemFault {
        SystemFault::Lines(fault)
    }
}

impl From<WrittenTwice> for SystemFault {
    ghost from_gives = { λ fault whole. whole ≡ Home fault };

    fn from(fault: WrittenTwice) -> SystemFault {
        SystemFault::Home(fault)
    }
}

mod refusal;
