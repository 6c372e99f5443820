// Standard input, through one buffer: what is held of it, and reading only where that is too little.
use crate::output::Output;
use crate::{Large, told};
use capture_buffer::Held;
use std::io;
use std::io::Read;
use std::rt::Runtime;

// What is held of the input, and whether that has ended.
#[derive(Drop)]
pub(crate) struct Input {
    pub(crate) buffer: Large,
    pub(crate) held: Held,
    pub(crate) ended: bool,
}

impl Input {
    pub(crate) fn bytes(&self) -> &[u8] {
        self.held.held_in(&self.buffer)
    }

    // Holds so many bytes, or all that are left where the input ends before that.
    pub(crate) fn hold(&mut self, rt: &impl Runtime, output: &mut Output, n: usize) {
        // Every read but the last gives a byte at least.
        for _ in 0..n {
            if !output.going | self.ended | (n <= self.bytes().len()) {
                break;
            }
            self.refill(rt, output);
        }
    }

    // Reads once. What was said is written before, so that who reads a live capture along sees every record that came.
    fn refill(&mut self, rt: &impl Runtime, output: &mut Output) {
        output.flush(rt);
        if !output.going {
            return;
        }
        let held = self.held.settle(&mut self.buffer);
        let mut count = 0;
        match read_behind(rt, &mut self.buffer, held.to) {
            Ok(got) => count = got,
            Err(_) => {
                told::failed(rt, "cannot read the capture to its end");
                output.going = false;
            }
        }
        if count == 0 {
            self.ended = true;
        }
        self.held = held.grow(&self.buffer, count);
    }

    // Takes so many of the bytes that are held.
    pub(crate) fn take(&mut self, n: usize) {
        self.held = self.held.take(n);
    }
}

fn read_behind(rt: &impl Runtime, buffer: &mut [u8], to: usize) -> io::Result<usize> {
    if buffer.len() <= to {
        return Ok(0);
    }
    rt.reader().read(&mut buffer[to..])
}
