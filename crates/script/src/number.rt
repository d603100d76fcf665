// Decimal numbers at the front of a text.
ghost use Rattle.std.specs.Prelude.{◌≡◌, ◌^◌, ◌<◌, ◌≤◌, ◌&&◌, length, MatchResult, ◌==◌, nat_lt, slice_index};
ghost use Rattle.std.specs.Str.Parse.{AllDigits, digits_value as number_of};
ghost use Rattle.std.specs.Float.Numeral.{digits_len};
ghost use Rattle.std.specs.Result.{OkIff};
ghost use Rattle.script.specs.Texts.{Parted, Front, NoFront};

use crate::fault::NotALine;

// How many digits stand at the front.
fn digits(text: &[u8]) -> usize
    ensures value { result ≡ digits_len text.now }
    ensures within { result ≤ length text.now }
{
    text.iter().take_while(|b| b.is_ascii_digit()).count()
}

// The digits at the front, and what follows them.
#[tactic(auto, using(crate::proofs::Numbers::parted))]
fn split_digits(text: &[u8]) -> (&[u8], &[u8])
    ensures { Parted text.now result.0.now result.1.now }
{
    text.split_at(digits(text))
}

// The number that digits write, where it has at most 64 bits.
// Digit by digit: the library's `parse` (tried) wants the text tested as UTF-8 first, and takes a quarter more time of a run.
fn value(digits: &[u8]) -> Result<u64, NotALine>
    requires { AllDigits 10 digits.now }
    ensures { OkIff result ((0 < length digits.now) × (number_of 10 digits.now < 2 ^ 64)) (number_of 10 digits.now) }
{
    if digits.is_empty() {
        return Err(NotALine);
    }
    let mut n: u64 = 0;
    for digit in digits {
        let tens = n.checked_mul(10).ok_or(NotALine)?;
        n = tens.checked_add(u64::from(*digit - b'0')).ok_or(NotALine)?;
    }
    Ok(n)
}

// A zero with more digits behind it.
fn zero_leads(digits: &[u8]) -> bool
    ensures { result ≡ (nat_lt 1 (length digits.now) && slice_index digits.now 0 == 48) }
{
    matches!(digits, [b'0', _, ..])
}

// The number at the front, and what follows it.
pub(crate) fn number(text: &[u8]) -> Result<(u64, &[u8]), NotALine>
    ensures { MatchResult result (λ p. Front text.now p.0 p.1.now) (λ _. NoFront text.now) }
{
    let (front, rest) = split_digits(text);
    if zero_leads(front) {
        return Err(NotALine);
    }
    Ok((value(front)?, rest))
}
