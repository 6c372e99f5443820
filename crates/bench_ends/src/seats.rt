// The two ends of quick mode as they go from line to line, and which part of the kept buffers is lent to them.
ghost use Rattle.std.specs.Prelude.{◌≡◌, None, ◌≤◌};

use quick_end::{End, Role};
use wire_read::{after, front};

// A kept buffer of each end: 4,096 bytes of the initiator's, and as many of the responder's behind them.
pub type Kept = [u8; 8192];

// How many bytes of each buffer are lent.
#[derive(Clone, Copy)]
pub struct Room {
    pub sent: u16,
    pub got: u16,
    pub output: u16,
}

// An end, once it is made, and what is lent to it, which outlives the end.
#[derive(Clone, Copy)]
pub struct Seat {
    pub end: Option<End>,
    pub room: Room,
}

#[derive(Clone, Copy)]
pub struct Seats {
    pub initiator: Seat,
    pub responder: Seat,
}

// The word that names an end: `i` or `r`.
pub(crate) fn role_of(word: &[u8]) -> Option<Role> {
    match word {
        b"i" => Some(Role::Initiator),
        b"r" => Some(Role::Responder),
        _ => None,
    }
}

// No end is made yet.
pub fn absent() -> Seats
    ensures { (result.initiator.end ≡ None) × (result.responder.end ≡ None) }
{
    let initiator = empty();
    let responder = empty();
    Seats {
        initiator,
        responder,
    }
}

fn empty() -> Seat
    ensures { result.end ≡ None }
{
    Seat {
        end: None,
        room: Room {
            sent: 2048,
            got: 2048,
            output: 2048,
        },
    }
}

pub(crate) fn seat_of(role: Role, seats: Seats) -> Seat {
    match role {
        Role::Initiator => seats.initiator,
        Role::Responder => seats.responder,
    }
}

pub(crate) fn seated(role: Role, seat: Seat, mut seats: Seats) -> Seats {
    match role {
        Role::Initiator => seats.initiator = seat,
        Role::Responder => seats.responder = seat,
    }
    seats
}

// Where an end's part of a kept buffer begins.
pub(crate) fn place(role: Role) -> usize
    ensures { result ≤ 4096 }
{
    match role {
        Role::Initiator => 0,
        Role::Responder => 4096,
    }
}

// How many bytes are lent. No line asks for more than 4,096; the test shows it to the prover.
pub(crate) fn size(asked: u16) -> usize
    ensures { result ≤ 4096 }
{
    (asked as usize).min(4096)
}

// What is lent of an end's kept buffer.
pub(crate) fn lent(role: Role, asked: u16, kept: &[u8]) -> &[u8] {
    front(after(kept, place(role)), size(asked))
}
