// The two ends of quick mode as bench keeps them from line to line, and the lines that make, step and show them.
#![tactic(auto)]

mod making;
mod seats;
mod showing;
mod stepping;

ghost use Rattle.std.specs.Prelude.{◌≤◌, length};

use bench_words::say::{append, bad_line};
use bench_words::words::{count, nth};
use quick_end::Role;
pub use seats::{Kept, Seats, absent};
use seats::{Seat, role_of, seat_of, seated};

#[derive(Clone, Copy)]
enum Verb {
    Fresh,
    Room,
    Begin,
    Deliver,
    Tick,
    State,
    Kept,
    Nonce,
}

// The ends after a line, the place behind what was said, and whether the line's verb is one of an end: where it is none,
// nothing was said or changed.
#[derive(Clone, Copy)]
pub struct Answered {
    pub known: bool,
    pub said: usize,
    pub ends: Seats,
}

// Answers a line whose verb is one of an end, without a line end.
pub fn answer(
    line: &[u8],
    sent: &mut Kept,
    got: &mut Kept,
    bytes: &mut [u8],
    out: &mut [u8],
    said: usize,
    ends: Seats,
) -> Answered
    ensures { result.said ≤ length out.new }
{
    let Some(verb) = verb_of(line) else {
        // Says nothing, and shows the prover that the place lies within the output.
        let said = append(out, said, b"");
        return Answered {
            known: false,
            said,
            ends,
        };
    };
    let Some(role) = role_on(verb, line) else {
        let said = bad_line(out, said);
        return Answered {
            known: true,
            said,
            ends,
        };
    };
    let seat = seat_of(role, ends);
    let told = by_verb(verb, line, role, seat, sent, got, bytes, out, said);
    let seat = told.seat;
    let ends = seated(role, seat, ends);
    Answered {
        known: true,
        said: told.said,
        ends,
    }
}

// The verb of a line that has as many words as the verb asks for.
fn verb_of(line: &[u8]) -> Option<Verb> {
    match (count(line), nth(line, 0)) {
        (8, b"fresh") => Some(Verb::Fresh),
        (5, b"room") => Some(Verb::Room),
        (4, b"begin") => Some(Verb::Begin),
        (4, b"deliver") => Some(Verb::Deliver),
        (2, b"tick") => Some(Verb::Tick),
        (2, b"state") => Some(Verb::State),
        (2, b"kept") => Some(Verb::Kept),
        (4, b"nonce") => Some(Verb::Nonce),
        _ => None,
    }
}

// The end that a line is on: `begin` is the initiator's alone, every other verb has the end in word 1.
fn role_on(verb: Verb, line: &[u8]) -> Option<Role> {
    match verb {
        Verb::Begin => Some(Role::Initiator),
        _ => role_of(nth(line, 1)),
    }
}

// An end's seat after a line, and the place behind what was said.
#[derive(Clone, Copy)]
struct Told {
    seat: Seat,
    said: usize,
}

fn by_verb(
    verb: Verb,
    line: &[u8],
    role: Role,
    seat: Seat,
    sent: &mut Kept,
    got: &mut Kept,
    bytes: &mut [u8],
    out: &mut [u8],
    said: usize,
) -> Told
    ensures { result.said ≤ length out.new }
{
    match verb {
        Verb::Fresh => making::fresh(line, role, seat, sent, got, bytes, out, said),
        Verb::Room => making::room(line, seat, out, said),
        Verb::Begin => stepping::begin(line, seat, sent, got, bytes, out, said),
        Verb::Deliver => stepping::deliver(line, role, seat, sent, got, bytes, out, said),
        Verb::Tick => stepping::tick(role, seat, sent, got, out, said),
        // The rest changes nothing.
        Verb::State => Told {
            seat,
            said: showing::state(role, seat, got, out, said),
        },
        Verb::Kept => Told {
            seat,
            said: showing::kept(role, seat, sent, got, out, said),
        },
        Verb::Nonce => Told {
            seat,
            said: showing::nonce(line, role, bytes, out, said),
        },
    }
}
