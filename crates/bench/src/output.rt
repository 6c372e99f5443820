// Standard output, through one buffer.
use crate::Large;
use std::io;
use std::io::Write;
use wire_read::front;

// The longest answer and its line end: that of `why` for eight lines and sixteen sets of eight transforms, all of them with
// numbers of three digits and `surplus 32767`, has 3 + 8 * 16 * (15 + 8 * 39) characters.
const LONGEST_ANSWER: usize = 41860;

// Output that is more than this is written before the next line, so that there is always room for the longest answer.
const MOST_SAID: usize = 65536 - LONGEST_ANSWER;

// What was said and is not yet written, and how much that is.
#[derive(Drop)]
pub(crate) struct Output {
    pub(crate) out: Large,
    pub(crate) said: usize,
}

impl Output {
    // Writes out what was said.
    pub(crate) fn flush(&mut self, writer: &mut impl Write) -> io::Result<()> {
        let said = self.said;
        self.said = 0;
        writer.write_all(front(&self.out, said))
    }

    pub(crate) fn make_room(&mut self, writer: &mut impl Write) -> io::Result<()> {
        if MOST_SAID < self.said {
            self.flush(writer)
        } else {
            Ok(())
        }
    }
}
