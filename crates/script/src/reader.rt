// The lines of an input that comes byte by byte.
ghost use Rattle.std.specs.Prelude.{◌≡◌, MatchResult, ◌==◌};
ghost use Rattle.script.specs.Inputs.{WritesLine, NoCallLine, CutAtFeeds};
ghost use Rattle.script.specs.Readers.{told, told_end, reading, begun, opened, fed, at_end, ReadsAll};

use crate::call::Call;
use crate::fault::NotALine;
use bounded::ArrayVec;

// A line of an input, without its line feed.
#[derive(Clone, Copy, Debug, PartialEq, Eq)]
pub enum Line<'a> {
    Text(&'a [u8]),
    Overlong,
    Unended,
}

// What is read of a line: its bytes, while they are at most 96, and whether its line feed came.
// The flag is no state with a value: the line is read after its line feed as before it.
#[derive(Drop)]
pub struct LineReader {
    kept: Option<ArrayVec<u8, 96>>,
    ended: bool,
}

impl Line<'_> {
    // The call that the line writes. A line that is too long, or has no line feed, writes none.
    pub fn call(self) -> Result<Call, NotALine>
        ensures { MatchResult result (λ c. WritesLine c (told self.entry)) (λ _. NoCallLine (told self.entry)) }
    {
        match self {
            Line::Text(text) => Call::parse(text),
            Line::Overlong | Line::Unended => Err(NotALine),
        }
    }
}

impl LineReader {
    #[tactic(auto, using(crate::proofs::Feeding::reads_all, crate::proofs::Cutting::cut_at_feeds))]
    pub fn new() -> LineReader
        ensures begun { reading result ≡ begun }
        ensures all { ReadsAll }
        ensures cut { CutAtFeeds }
    {
        LineReader {
            kept: Some(ArrayVec::new(0)),
            ended: false,
        }
    }

    // Where the line is ended, another begins.
    fn open(&mut self)
        ensures { reading self.new ≡ opened (reading self.old) }
    {
        if self.ended {
            *self = LineReader::new();
        }
    }

    // Takes the next byte of the input, and says whether it ends a line.
    pub fn feed(&mut self, byte: u8) -> bool
        ensures answer { result ≡ (byte == 10) }
        ensures after { reading self.new ≡ fed (reading self.old) byte }
    {
        self.open();
        if byte == b'\n' {
            self.ended = true;
            return true;
        }
        if let Some(bytes) = &mut self.kept
            && bytes.push(byte).is_err()
        {
            self.kept = None;
        }
        false
    }

    // The line, as far as it is read.
    pub fn line(&self) -> Line<'_>
        ensures { told result ≡ (reading self.now).line }
    {
        match &self.kept {
            Some(bytes) => Line::Text(bytes.as_slice()),
            None => Line::Overlong,
        }
    }

    // The line that the end of the input leaves, if any byte came after the last line feed.
    pub fn end(&self) -> Option<Line<'static>>
        ensures { told_end result ≡ at_end (reading self.now) }
    {
        match &self.kept {
            _ if self.ended => None,
            Some(bytes) if bytes.len() == 0 => None,
            _ => Some(Line::Unended),
        }
    }
}
