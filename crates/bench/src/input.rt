// Standard input, through one buffer, and the line that is put together of it.
use crate::Large;
use bench_words::say::append;
use bench_words::words::find;
use std::io::Read;
use wire_read::{after, front};

// What was read last, and how far it is taken and filled; and the line, with its length. A line is at most LONGEST bytes long, and
// one that is longer fills its buffer and is known by that.
#[derive(Drop)]
pub(crate) struct Input {
    pub(crate) read: Large,
    pub(crate) taken: usize,
    pub(crate) filled: usize,
    pub(crate) line: Large,
    pub(crate) length: usize,
}

impl Input {
    // Whether all that was read is taken.
    pub(crate) fn is_taken(&self) -> bool {
        self.filled <= self.taken
    }

    // Reads once: how many bytes came. A read that fails counts as the end of the input.
    pub(crate) fn fill(&mut self, reader: &mut impl Read) -> usize {
        self.taken = 0;
        self.filled = reader.read(&mut self.read).unwrap_or(0);
        self.filled
    }

    // Adds to the line what was read up to a line end, and says whether that makes it whole.
    pub(crate) fn take(&mut self) -> bool {
        let read = front(&self.read, self.filled);
        let end = find(read, self.taken, b'\n');
        let whole = end < read.len();
        self.length = append(
            &mut self.line,
            self.length,
            after(front(read, end), self.taken),
        );
        self.taken = end + 1;
        whole
    }

    pub(crate) fn line(&self) -> &[u8] {
        front(&self.line, self.length)
    }

    pub(crate) fn begin_line(&mut self) {
        self.length = 0;
    }
}
