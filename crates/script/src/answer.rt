// What a line of a script is answered.
ghost use Rattle.std.specs.Prelude.{◌≡◌};
ghost use Rattle.script.specs.Answers.{of_script};

use crate::fault::{BufferShort, NotALine};
use refusals::{Layer, Refusal};

// The first five are accepted calls, with the numbers that they answer.
#[derive(Clone, Copy, Debug, PartialEq, Eq)]
pub enum Answer {
    Done,
    Place(u64),
    Ready(u64),
    Drawn {
        place: u64,
        address: u64,
        word: u64,
        frame: u32,
        instruction: u32,
    },
    Base(u64),
    Refused(Refusal),
}

impl From<NotALine> for Refusal {
    ghost from_gives = { λ _ refusal. refusal ≡ of_script 6 };

    fn from(_fault: NotALine) -> Refusal {
        Refusal::new(Layer::Script, 6)
    }
}

impl From<BufferShort> for Refusal {
    ghost from_gives = { λ _ refusal. refusal ≡ of_script 10 };

    fn from(_fault: BufferShort) -> Refusal {
        Refusal::new(Layer::Script, 10)
    }
}
