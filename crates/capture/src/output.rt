// Standard output, through one buffer.
use crate::{Large, Occurred, told};
use bench_words::say;
use refusal::Refusal;
use std::io::ErrorKind;
use std::rt::Runtime;
use wire_read::front;

// What was said and is not yet written, and how much that is; whether to go on, and whether the reader of the listing has left; and
// which numbers of refusals were said.
#[derive(Drop)]
pub(crate) struct Output {
    pub(crate) out: Large,
    pub(crate) said: usize,
    pub(crate) going: bool,
    pub(crate) left: bool,
    pub(crate) occurred: Occurred,
}

impl Output {
    pub(crate) fn append(&mut self, text: &[u8]) {
        self.said = say::append(&mut self.out, self.said, text);
    }

    // Writes out what was said. Where that fails the listing ends; nobody is told where its reader has left.
    pub(crate) fn flush(&mut self, rt: &impl Runtime) {
        let written = rt.write_all(front(&self.out, self.said));
        self.said = 0;
        if let Err(error) = written {
            self.going = false;
            if error.kind() == ErrorKind::BrokenPipe {
                self.left = true;
            } else {
                told::failed(rt, "cannot write to standard output");
            }
        }
    }

    // Ends a line. The output is written when it is more than half full, so half of it is room for what is said of a record.
    pub(crate) fn end_line(&mut self, rt: &impl Runtime) {
        self.append(b"\n");
        if self.out.len() / 2 < self.said {
            self.flush(rt);
        }
    }

    // The last line of a listing that a refusal ends.
    pub(crate) fn refused(&mut self, rt: &impl Runtime, refusal: Refusal) {
        self.occurs(refusal);
        self.said = say::refused(&mut self.out, self.said, refusal.number());
        self.going = false;
        self.end_line(rt);
    }

    // Notes that the listing has a refusal.
    pub(crate) fn occurs(&mut self, refusal: Refusal) {
        let at = refusal.number() as usize;
        if at < self.occurred.len() {
            self.occurred[at] = true;
        }
    }
}
