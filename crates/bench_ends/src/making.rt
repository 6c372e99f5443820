// `fresh i|r ICOOKIE RCOOKIE BOOK AH ESP NONCE` and `room i|r SENT GOT OUT`: makes an end anew, and says what is lent to it.
ghost use Rattle.std.specs.Prelude.{◌≤◌, length};

use crate::Told;
use crate::seats::{Kept, Room, Seat, place};
use bench_words::say::append;
use bench_words::words::nth;
use bench_words::{hex, number, say};
use quick_end::Role;
use wire_read::{after, front};
use wire_write::put_bytes;

#[derive(Clone, Copy)]
struct Own {
    icookie: u64,
    rcookie: u64,
    ah: u32,
    esp: u32,
}

// ICOOKIE, RCOOKIE, AH and ESP, in words 2, 3, 5 and 6.
fn own_of(line: &[u8]) -> Option<Own> {
    let icookie = number::eight_bytes(nth(line, 2))?;
    let rcookie = number::eight_bytes(nth(line, 3))?;
    let ah = number::decimal(nth(line, 5), u32::MAX)?;
    let esp = number::decimal(nth(line, 6), u32::MAX)?;
    Some(Own {
        icookie,
        rcookie,
        ah,
        esp,
    })
}

pub(crate) fn fresh(
    line: &[u8],
    role: Role,
    seat: Seat,
    sent: &mut Kept,
    got: &mut Kept,
    bytes: &mut [u8],
    out: &mut [u8],
    said: usize,
) -> Told
    ensures { result.said ≤ length out.new }
{
    let Some(own) = own_of(line) else {
        let said = say::bad_line(out, said);
        return Told { seat, said };
    };
    let Some((middle, end)) = hex::decode_two(nth(line, 4), nth(line, 7), bytes) else {
        let said = say::bad_line(out, said);
        return Told { seat, said };
    };
    let both = front(bytes, end);
    make(
        own,
        front(both, middle),
        after(both, middle),
        role,
        seat,
        sent,
        got,
        out,
        said,
    )
}

// A refused end leaves the one before it as it was; an end that is made has kept nothing yet.
fn make(
    own: Own,
    book: &[u8],
    nonce: &[u8],
    role: Role,
    seat: Seat,
    sent: &mut Kept,
    got: &mut Kept,
    out: &mut [u8],
    said: usize,
) -> Told
    ensures { result.said ≤ length out.new }
{
    let end = match quick_end::fresh(role, own.icookie, own.rcookie, book, own.ah, own.esp, nonce) {
        Ok(end) => end,
        Err(refusal) => {
            let said = say::refused(out, said, refusal.number());
            return Told { seat, said };
        }
    };
    let nothing = [0u8; 4096];
    put_bytes(sent, place(role), &nothing);
    put_bytes(got, place(role), &nothing);
    let seat = Seat {
        end: Some(end),
        ..seat
    };
    let said = append(out, said, b"fresh");
    Told { seat, said }
}

// SENT, GOT and OUT, in words 2 to 4.
fn sizes_of(line: &[u8]) -> Option<Room> {
    Some(Room {
        sent: size_of(nth(line, 2))?,
        got: size_of(nth(line, 3))?,
        output: size_of(nth(line, 4))?,
    })
}

fn size_of(word: &[u8]) -> Option<u16> {
    u16::try_from(number::decimal(word, 4096)?).ok()
}

pub(crate) fn room(line: &[u8], seat: Seat, out: &mut [u8], said: usize) -> Told
    ensures { result.said ≤ length out.new }
{
    let Some(room) = sizes_of(line) else {
        let said = say::bad_line(out, said);
        return Told { seat, said };
    };
    if seat.end.is_none() {
        let said = append(out, said, b"none");
        return Told { seat, said };
    }
    let seat = Seat { room, ..seat };
    let said = append(out, said, b"room");
    Told { seat, said }
}
