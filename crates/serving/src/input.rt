// All lines of an input, through a chunk of memory.
ghost use Rattle.std.specs.Prelude.{IfSome, OnOk};
ghost use Rattle.script.specs.Inputs.{lines_of};
ghost use Rattle.script.specs.Readers.{told, reading};
ghost use Rattle.serving.specs.Served.{Adds, Feeds, Ends, Serves};

use network::Network;
use script::{Line, LineReader, print_answer};
use session::Session;
use std::io;
use std::io::{Error, ErrorKind, Read, Write};

// No answer line is longer.
const ANSWER: usize = 128;

const CHUNK: usize = 4096;

// A session, and what is read of its next line.
// The output stands apart: as a field (tried), each contract would have to say that it stays the same borrow.
#[derive(Drop)]
struct Serving<N> {
    session: Session<N>,
    reader: LineReader,
}

// Runs a line, and writes what it is answered.
fn answer<N: Network, W: Write>(
    session: &mut Session<N>,
    line: Line<'_>,
    out: &mut W,
) -> io::Result<()>
    ensures { OnOk result (Adds N.Network session.old (told line.entry) session.new (W.contents out.old) (W.contents out.new)) }
{
    let answer = session.line(line);
    let mut buffer = [0u8; ANSWER];
    let length = print_answer(answer, &mut buffer).map_err(|_| Error::from(ErrorKind::WriteZero))?;
    out.write_all(&buffer[..length])
}

impl<N: Network> Serving<N> {
    // Takes the next bytes of the input.
    fn feed_all<W: Write>(&mut self, bytes: &[u8], out: &mut W) -> io::Result<()>
        ensures { OnOk result (Feeds N.Network bytes.now self.old.session (reading self.old.reader) (W.contents out.old) self.new.session (reading self.new.reader) (W.contents out.new)) }
    {
        // By chunks: with the library's `bytes` a long script takes 2.76 times what plain Rust takes, and the bar is 2.
        for byte in bytes {
            if self.reader.feed(*byte) {
                answer(&mut self.session, self.reader.line(), out)?;
            }
        }
        Ok(())
    }

    // Takes the end of the input.
    fn end<W: Write>(&mut self, out: &mut W) -> io::Result<()>
        ensures { OnOk result (Ends N.Network self.old.session (reading self.old.reader) (W.contents out.old) self.new.session (W.contents out.new)) }
    {
        if let Some(line) = self.reader.end() {
            answer(&mut self.session, line, out)?;
        }
        Ok(())
    }
}

// A new session over a network runs all lines of the input, and writes an answer line for each.
pub fn serve<N: Network + Drop, R: Read, W: Write>(
    network: N,
    input: &mut R,
    out: &mut W,
) -> io::Result<()>
    ensures { OnOk result (IfSome (R.remaining input.old) (λ bytes. Serves N.Network network (lines_of bytes) (W.contents out.old) (W.contents out.new))) }
{
    let mut serving = Serving {
        session: Session::new(network),
        reader: LineReader::new(),
    };
    let mut chunk = [0u8; CHUNK];
    // Every loop is proved to end, and nothing says that an input does.
    for _turn in 0..u64::MAX {
        let count = input.read(&mut chunk)?;
        if count == 0 {
            return serving.end(out);
        }
        serving.feed_all(&chunk[..count], out)?;
    }
    Err(Error::from(ErrorKind::FileTooLarge))
}
