ghost use Rattle.std.specs.Prelude.{◌≡◌};
ghost use Rattle.std.specs.Option.{option_map};
ghost use Rattle.array.specs.References.{plain, referring, reference_word};
ghost use Rattle.std.proofs.Common.{rules};

use super::ArrayRef;
use crate::element::{Element, NotAnElement};

const CELLS: u16 = 1024;

impl ArrayRef {
    pub fn new(kind: u64, base: u64, length: u64) -> Option<ArrayRef>
        ensures { option_map plain result ≡ referring kind base length }
    {
        let kind = u8::try_from(kind).ok()?;
        let base = u16::try_from(base).ok()?;
        let length = u16::try_from(length).ok()?;
        if kind == 0 || length == 0 || length > CELLS || base > CELLS - length {
            return None;
        }
        Some(ArrayRef { kind, base, length })
    }

    pub fn kind(self) -> u8
        ensures { result ≡ self.kind }
    {
        self.kind
    }

    pub fn base(self) -> u16
        ensures { result ≡ self.base }
    {
        self.base
    }

    pub fn length(self) -> u16
        ensures { result ≡ self.length }
    {
        self.length
    }
}

// A reference to an array is an element too, so that arrays hold arrays.
impl Element for ArrayRef {
    const NUMBER: u8 = 3;

    ghost NUMBER = { 3 };

    ghost valid = { λ _. Unit {0} };

    ghost packed = { λ a. reference_word (plain a) };

    ghost least = { Prim.search rules };

    ghost most = { Prim.search rules };

    fn pack(self) -> u64 {
        let ArrayRef { kind, base, length } = self;
        (u64::from(kind) << 32) + (u64::from(base) << 16) + u64::from(length)
    }

    fn open(word: u64) -> Result<ArrayRef, NotAnElement> {
        ArrayRef::new(word >> 32, (word >> 16) & 0xFFFF, word & 0xFFFF).ok_or(NotAnElement)
    }
}
