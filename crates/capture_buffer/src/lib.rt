// The buffer that a file is read through: what is held of it, taking from its front, room for the next read behind it.
#![tactic(auto)]

ghost use Rattle.std.specs.Prelude.{◌≡◌};
ghost use Rattle.capture_buffer.specs.Buffer.{held_in, taken, grown, settled};

use wire_read::{after, front};

// Where what was read and is not yet taken lies in the buffer.
#[derive(Clone, Copy, Debug, PartialEq, Eq)]
pub struct Held {
    pub from: usize,
    pub to: usize,
}

impl Held {
    // The bytes that are held.
    pub fn held_in(self, buffer: &[u8]) -> &[u8]
        ensures { result.now ≡ held_in buffer.now self }
    {
        after(front(buffer, self.to), self.from)
    }

    // Takes the first n of them, all where there are fewer.
    pub fn take(self, n: usize) -> Held
        ensures { result ≡ taken self n }
    {
        Held {
            from: self.from.saturating_add(n).min(self.to),
            to: self.to,
        }
    }

    // Holds so many more, which a read put right behind them.
    pub fn grow(self, buffer: &[u8], got: usize) -> Held
        ensures { result ≡ grown buffer.now self got }
    {
        Held {
            from: self.from,
            to: self.to.saturating_add(got).min(buffer.len()),
        }
    }

    // Moves them to the buffer's front.
    pub fn settle(self, buffer: &mut [u8]) -> Held
        ensures { settled buffer.old self ≡ (result, buffer.new) }
    {
        let end = self.to.min(buffer.len());
        let from = self.from.min(end);
        buffer.copy_within(from..end, 0);
        Held {
            from: 0,
            to: end - from,
        }
    }
}
