// The fields of a line: decimal numbers, each with a comma before it.
ghost use Rattle.std.specs.Prelude.{◌≡◌, ℕ, ◌<◌, List, ◌∷◌, MatchResult, ◌≢◌};
ghost use Rattle.script.specs.Texts.{Fielded, NotFielded};

use crate::fault::NotALine;
use crate::number::number;

// What follows the comma at the front.
fn after_comma(text: &[u8]) -> Result<&[u8], NotALine>
    ensures { MatchResult result (λ s. text.now ≡ 44 ∷ s.now) (λ _. (s : List ℕ) → text.now ≢ 44 ∷ s) }
{
    text.strip_prefix(b",").ok_or(NotALine)
}

// The numbers of a text that has just `N` of them, each with a comma before it.
pub(crate) fn fields<const N: usize>(text: &[u8]) -> Result<[u64; N], NotALine>
    ensures { MatchResult result (λ xs. Fielded N text.now xs) (λ _. NotFielded N text.now) }
{
    let mut values = [0; N];
    let mut rest = text;
    for value in &mut values {
        (*value, rest) = number(after_comma(rest)?)?;
    }
    match rest {
        [] => Ok(values),
        _ => Err(NotALine),
    }
}
