// Why a line is refused. What the memory says is carried whole.
ghost use Rattle.std.specs.Prelude.{◌≡◌};
ghost use Rattle.session.specs.Faults.{scripted_refusal};
ghost use Rattle.session.specs.declared.fault.SessionFault.TheVariants.{NotALine as no_line, System as by_system, Array as by_array};

use array::ArrayFault;
use refusals::Refusal;
use script::NotALine;
use system::SystemFault;

#[derive(Clone, Copy, PartialEq, Eq)]
pub enum SessionFault {
    NotALine,
    System(SystemFault),
    Array(ArrayFault),
}

impl From<NotALine> for SessionFault {
    ghost from_gives = { λ _ whole. whole ≡ no_line };

    fn from(_fault: NotALine) -> SessionFault {
        SessionFault::NotALine
    }
}

impl From<SystemFault> for SessionFault {
    ghost from_gives = { λ fault whole. whole ≡ by_system fault };

    fn from(fault: SystemFault) -> SessionFault {
        SessionFault::System(fault)
    }
}

// No line reads or writes an array by index: this is for what is driven beside the lines.
impl From<ArrayFault> for SessionFault {
    ghost from_gives = { λ fault whole. whole ≡ by_array fault };

    fn from(fault: ArrayFault) -> SessionFault {
        SessionFault::Array(fault)
    }
}

impl From<SessionFault> for Refusal {
    ghost from_gives = { λ fault refusal. refusal ≡ scripted_refusal fault };

    fn from(fault: SessionFault) -> Refusal {
        match fault {
            SessionFault::NotALine => Refusal::from(NotALine),
            SessionFault::System(fault) => Refusal::from(fault),
            SessionFault::Array(fault) => Refusal::from(fault),
        }
    }
}
