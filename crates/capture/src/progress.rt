// How far a long file is listed, for who waits at a terminal.
use std::fs;
use std::rt::Runtime;

const LONG: u64 = 50000000;

// How long the file is, where progress is told, and at which byte of it a word is due next.
#[derive(Drop)]
pub(crate) struct Progress {
    size: u64,
    due: u64,
}

pub(crate) fn begun(rt: &impl Runtime, terminal: bool) -> Progress {
    match size_to_tell(rt, terminal) {
        Some(size) => Progress {
            size,
            due: size / 10 + 1,
        },
        // Nothing is told.
        None => Progress {
            size: 0,
            due: u64::MAX,
        },
    }
}

// The length of standard input where progress is told: on a terminal, of a file over 50 MB that is read from its front.
fn size_to_tell(rt: &impl Runtime, terminal: bool) -> Option<u64> {
    if !terminal {
        return None;
    }
    if !at_front(rt) {
        return None;
    }
    let file = fs::metadata(rt, "/dev/stdin").ok()?;
    if LONG < file.len() {
        Some(file.len())
    } else {
        None
    }
}

// Whether nothing of standard input is read yet; no where the system does not say.
fn at_front(rt: &impl Runtime) -> bool {
    let Ok(text) = fs::read_to_string(rt, "/proc/self/fdinfo/0") else {
        return false;
    };
    text.as_bytes().starts_with(b"pos:\t0\n")
}

impl Progress {
    // Says how far the listing is, a line at each tenth.
    pub(crate) fn tell(&mut self, rt: &impl Runtime, at: u64) {
        if at < self.due {
            return;
        }
        let tenth = self.size / 10 + 1;
        // The remainder changes nothing up to the tenth tenth; it shows the prover that the product fits.
        let tenths = at / tenth % 16;
        let megabytes = self.size / 1000000;
        let _ = eprintln!(rt; "./capture: {} % of {megabytes} MB", tenths * 10);
        self.due = self.due.wrapping_add(tenth);
    }
}
