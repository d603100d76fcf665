ghost use Rattle.std.specs.Prelude.{FitsSigned};
ghost use Rattle.std.specs.Int.{w64};
ghost use Rattle.array.specs.Numbers.{signed};
ghost use Rattle.std.proofs.Common.{rules};

use crate::element::{Element, NotAnElement};

// A signed number of 64 bits: every word is one.
impl Element for i64 {
    const NUMBER: u8 = 1;

    ghost NUMBER = { 1 };

    ghost valid = { λ n. FitsSigned w64 n };

    ghost packed = { signed };

    ghost least = { Prim.search rules };

    ghost most = { Prim.search rules };

    fn pack(self) -> u64 {
        self.cast_unsigned()
    }

    fn open(word: u64) -> Result<i64, NotAnElement> {
        Ok(word.cast_signed())
    }
}
