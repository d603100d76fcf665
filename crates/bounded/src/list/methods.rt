ghost use Rattle.std.specs.Prelude.{◌≡◌, ◌<◌, ◌≤◌, [], length, is_ok, OnErr, nat_lt, slice_set};
ghost use Rattle.std.specs.List.{slice_get, remove};
ghost use Rattle.bounded.specs.Listed.{listed, pushed};

use super::{ArrayVec, Full};

impl<T: Copy, const CAP: usize> ArrayVec<T, CAP> {
    // No values yet; `blank` fills the room that is not used.
    pub fn new(blank: T) -> ArrayVec<T, CAP>
        ensures { listed result ≡ [] }
    {
        ArrayVec {
            items: [blank; CAP],
            len: 0,
        }
    }

    pub fn len(&self) -> usize
        ensures value { result ≡ length (listed self.now) }
        ensures bound { result ≤ CAP }
    {
        self.len
    }

    // The value at `i`, the oldest being 0.
    pub fn get(&self, i: usize) -> Option<T>
        ensures { result ≡ slice_get (listed self.now) i }
    {
        self.as_slice().get(i).copied()
    }

    // Adds `x` behind the others, where there is room.
    pub fn push(&mut self, x: T) -> Result<(), Full>
        ensures answer { is_ok result ≡ nat_lt (length (listed self.old)) CAP }
        ensures after { listed self.new ≡ pushed CAP (listed self.old) x }
        ensures same { OnErr result (self.new ≡ self.old) }
    {
        if self.len >= CAP {
            return Err(Full);
        }
        self.items[self.len] = x;
        self.len += 1;
        Ok(())
    }

    // Takes out the value at `i`; those behind it move up.
    pub fn remove(&mut self, i: usize) -> Option<T>
        ensures answer { result ≡ slice_get (listed self.old) i }
        ensures after { listed self.new ≡ remove (listed self.old) i }
    {
        if i >= self.len {
            return None;
        }
        let x = self.items[i];
        self.items.copy_within(i + 1..self.len, i);
        self.len -= 1;
        Some(x)
    }

    // Writes the value at `i`; where there is none, nothing changes. (By a test: `get_mut` does not say what the slice ends as.)
    pub fn set(&mut self, i: usize, x: T)
        ensures { listed self.new ≡ slice_set (listed self.old) i x }
    {
        if i < self.len {
            self.items[i] = x;
        }
    }

    pub fn as_slice(&self) -> &[T]
        ensures { result.now ≡ listed self.now }
    {
        let all = &self.items[..];
        &all[0..self.len]
    }
}
