// One script of an input as a reader of its own. Its lines are answered while they are read: none is held whole, as
// the library's `split` holds it.
use memchr::memchr;
use std::io;
use std::io::{BufRead, Read};

// The byte between two scripts.
pub(crate) const NEXT: u8 = 30;

// The bytes of an input up to its next separator, which is taken too.
#[derive(Drop)]
pub(crate) struct Script<'a, R> {
    input: &'a mut R,
    ended: bool,
}

impl<'a, R: BufRead> Script<'a, R> {
    pub(crate) fn new(input: &'a mut R) -> Script<'a, R> {
        Script {
            input,
            ended: false,
        }
    }
}

impl<R: BufRead> Read for Script<'_, R> {
    fn read(&mut self, buf: &mut [u8]) -> io::Result<usize> {
        if self.ended {
            return Ok(0);
        }
        let bytes = self.input.fill_buf()?;
        let room = &bytes[..bytes.len().min(buf.len())];
        let count = memchr(NEXT, room).unwrap_or(room.len());
        buf[..count].copy_from_slice(&room[..count]);
        self.ended = count < room.len();
        self.input.consume(count + usize::from(self.ended));
        Ok(count)
    }
}
