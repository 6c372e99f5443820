// What ./capture is told on descriptor 3, beside the exit status: `failed SENTENCE`, and `refused N` for each number that the listing
// has. A second argument asks for it: without one, that descriptor may be anything of the caller's.
use crate::Occurred;
use std::env::FillError;
use std::fmt::Display;
use std::fs::OpenOptions;
use std::io::Write;
use std::rt::Runtime;

const TOLD: &str = "/dev/fd/3";

fn is_asked(rt: &impl Runtime) -> bool {
    match rt.arg(2, &mut [0u8; 1]) {
        Err(FillError::NotPresent) => false,
        _ => true,
    }
}

fn tell(rt: &impl Runtime, line: impl Display + Drop) {
    if !is_asked(rt) {
        return;
    }
    if let Ok(mut to) = OpenOptions::new().append(true).open(rt, TOLD) {
        let _ = to.writeln(line);
    }
}

pub(crate) fn failed(rt: &impl Runtime, sentence: &str) {
    tell(rt, format_args!("failed {sentence}"));
}

pub(crate) fn refusals(rt: &impl Runtime, occurred: &Occurred) {
    for n in 1..occurred.len() {
        if occurred[n] {
            tell(rt, format_args!("refused {n}"));
        }
    }
}
