// A line that is being written.
ghost use Rattle.std.specs.Prelude.{◌≡◌, ◌≤◌, [], ◌∷◌, ◌++◌, length, decimal, MatchResult};
ghost use Rattle.script.specs.Answers.{refusal_text};
ghost use Rattle.script.specs.Drafts.{written, Wrote, Printed, NoRoom};
ghost use Rattle.script.specs.Texts.{fields_text, option_text, ended, Small};

use crate::fault::BufferShort;
use bounded::ArrayVec;
use itoa::Buffer;
use refusals::Refusal;

// The longest line is `ok` with five numbers of twenty digits: 108 bytes with its line feed.
#[derive(Drop)]
pub(crate) struct Draft {
    text: ArrayVec<u8, 108>,
}

impl Draft {
    fn new() -> Draft
        ensures { written result ≡ [] }
    {
        Draft {
            text: ArrayVec::new(0),
        }
    }

    // A byte that finds no room is dropped.
    fn push(&mut self, b: u8)
        ensures { Wrote self.old (b ∷ []) self.new }
    {
        let _ = self.text.push(b);
    }

    #[tactic(auto, using(crate::proofs::Drafted::part_more))]
    fn text(&mut self, text: &[u8])
        ensures { Wrote self.old text.now self.new }
    {
        for &b in text {
            self.push(b);
        }
    }

    // A comma, and then the number.
    fn number(&mut self, n: u64)
        ensures wrote { Wrote self.old (44 ∷ decimal n) self.new }
        ensures short { length (decimal n) ≤ 20 }
    {
        self.push(b',');
        self.text(Buffer::new().format(n).as_bytes());
    }

    // A comma, and then the number or a dash.
    fn optional(&mut self, n: Option<u64>)
        ensures wrote { Wrote self.old (44 ∷ option_text n) self.new }
        ensures short { length (option_text n) ≤ 20 }
    {
        match n {
            Some(n) => self.number(n),
            None => self.text(b",-"),
        }
    }

    // The line of a word of at most two bytes and at most five numbers, with its line feed.
    pub(crate) fn of(word: &[u8], numbers: &[u64]) -> Draft
        requires { (length word.now ≤ 2) × (length numbers.now ≤ 5) }
        ensures line { written result ≡ ended (word.now ++ fields_text numbers.now) }
        ensures small { Small numbers.now }
    {
        let mut line = Draft::new();
        line.text(word);
        for &n in numbers {
            line.number(n);
        }
        line.push(b'\n');
        line
    }

    // The line of a refusal, with its line feed.
    pub(crate) fn refused(refusal: Refusal) -> Draft
        ensures { written result ≡ ended (refusal_text refusal) }
    {
        let mut line = Draft::new();
        line.text(b"no");
        line.number(refusal.number);
        line.push(b',');
        line.text(refusal.layer.name());
        line.optional(refusal.node);
        line.optional(refusal.address);
        line.push(b'\n');
        line
    }

    // Writes the line at the front of a buffer, if that has the room.
    pub(crate) fn copy_to(&self, buffer: &mut [u8]) -> Result<usize, BufferShort>
        ensures { MatchResult result (λ n. Printed (written self.now) n buffer.old buffer.new) (λ _. NoRoom (written self.now) buffer.old buffer.new) }
    {
        let line = self.text.as_slice();
        let n = line.len();
        // `get_mut` would be shorter, and nothing is said of what the slice ends as after it.
        if buffer.len() < n {
            return Err(BufferShort);
        }
        buffer[..n].copy_from_slice(line);
        Ok(n)
    }
}
