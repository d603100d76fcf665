// Why a call on an array is refused. What the system says is carried whole.
ghost use Rattle.std.specs.Prelude.{◌≡◌};
ghost use Rattle.system.specs.Refusals.{scripted};
ghost use Rattle.array.specs.Faults.{refusal_of};
ghost use Rattle.array.specs.declared.fault.ArrayFault.TheVariants.{NotAnElement, System};

use crate::element::NotAnElement;
use refusals::{Layer, Refusal};
use system::SystemFault;

#[derive(Clone, Copy, PartialEq, Eq)]
pub enum ArrayFault {
    NotAnElement,
    NoSuchIndex,
    OtherKind,
    System(SystemFault),
}

impl From<NotAnElement> for ArrayFault {
    ghost from_gives = { λ _ whole. whole ≡ NotAnElement };

    fn from(_fault: NotAnElement) -> ArrayFault {
        ArrayFault::NotAnElement
    }
}

impl From<SystemFault> for ArrayFault {
    ghost from_gives = { λ fault whole. whole ≡ System fault };

    fn from(fault: SystemFault) -> ArrayFault {
        ArrayFault::System(fault)
    }
}

impl From<ArrayFault> for Refusal {
    ghost from_gives = { λ fault refusal. refusal ≡ scripted (refusal_of fault) };

    fn from(fault: ArrayFault) -> Refusal {
        match fault {
            ArrayFault::NotAnElement => Refusal::new(Layer::Array, 7),
            ArrayFault::NoSuchIndex => Refusal::new(Layer::Array, 8),
            ArrayFault::OtherKind => Refusal::new(Layer::Array, 9),
            ArrayFault::System(fault) => Refusal::from(fault),
        }
    }
}
