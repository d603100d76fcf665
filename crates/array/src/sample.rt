ghost use Rattle.std.specs.Prelude.{T, to_bits};
ghost use Rattle.std.specs.Float.{binary32};
ghost use Rattle.std.specs.Float.Ieee.{fits};
ghost use Rattle.std.proofs.Common.{rules};

use crate::element::{Element, NotAnElement};
use std::num::{f32_from_bits_with_nan, f32_to_bits_with_nan};

// A sample by its 32 bits. All not-a-numbers are one element, stored as 7FC00000.
impl Element for f32 {
    const NUMBER: u8 = 2;

    ghost NUMBER = { 2 };

    ghost valid = { λ x. T (fits binary32 x) };

    ghost packed = { to_bits binary32 };

    ghost least = { Prim.search rules };

    ghost most = { Prim.search rules };

    fn pack(self) -> u64 {
        u64::from(f32_to_bits_with_nan(self))
    }

    // A word above 32 bits is no sample's, and of all not-a-numbers' bits one pattern is.
    fn open(word: u64) -> Result<f32, NotAnElement> {
        let bits = u32::try_from(word).map_err(|_| NotAnElement)?;
        let sample = f32_from_bits_with_nan(bits);
        if sample.pack() == word {
            Ok(sample)
        } else {
            Err(NotAnElement)
        }
    }
}
