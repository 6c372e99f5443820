// `begin MID ID1 ID2`, `deliver i|r yes|no BYTES` and `tick i|r`: the steps of an end. Every word is read before the end
// is looked at.
ghost use Rattle.std.specs.Prelude.{◌≡◌, ◌≤◌, length};

use crate::Told;
use crate::seats::{Kept, Room, Seat, lent, place, size};
use bench_words::say::append;
use bench_words::words::nth;
use bench_words::{hex, integrity, number, say};
use quick_end::{End, Role};
use quick_step::{StepAnswer, Stepped};
use wire_read::{after, front};

pub(crate) fn begin(
    line: &[u8],
    seat: Seat,
    sent: &mut Kept,
    got: &Kept,
    bytes: &mut [u8],
    out: &mut [u8],
    said: usize,
) -> Told
    ensures { result.said ≤ length out.new }
{
    let Some(id) = number::decimal(nth(line, 1), u32::MAX) else {
        let said = say::bad_line(out, said);
        return Told { seat, said };
    };
    let Some((middle, end)) = hex::decode_two(nth(line, 2), nth(line, 3), bytes) else {
        let said = say::bad_line(out, said);
        return Told { seat, said };
    };
    let both = front(bytes, end);
    begin_with(
        id,
        front(both, middle),
        after(both, middle),
        seat,
        sent,
        got,
        out,
        said,
    )
}

fn begin_with(
    id: u32,
    first: &[u8],
    second: &[u8],
    seat: Seat,
    sent: &mut Kept,
    got: &Kept,
    out: &mut [u8],
    said: usize,
) -> Told
    ensures { result.said ≤ length out.new }
{
    let Some(end) = seat.end else {
        let said = append(out, said, b"none");
        return Told { seat, said };
    };
    let mut output = [0u8; 4096];
    let stepped = begun(end, seat.room, id, first, second, sent, got, &mut output);
    told(seat, stepped, &output, out, said)
}

fn begun(
    end: End,
    room: Room,
    id: u32,
    first: &[u8],
    second: &[u8],
    sent: &mut [u8],
    got: &[u8],
    output: &mut [u8],
) -> Stepped
    requires { (length sent.old ≡ 8192) × (length output.old ≡ 4096) }
{
    let to = size(room.sent);
    let width = size(room.output);
    quick_begin::begin(
        end,
        id,
        first,
        second,
        &mut sent[0..to],
        lent(Role::Initiator, room.got, got),
        &mut output[0..width],
    )
}

pub(crate) fn deliver(
    line: &[u8],
    role: Role,
    seat: Seat,
    sent: &mut Kept,
    got: &mut Kept,
    bytes: &mut [u8],
    out: &mut [u8],
    said: usize,
) -> Told
    ensures { result.said ≤ length out.new }
{
    let Some(holds) = integrity::read(nth(line, 2)) else {
        let said = say::bad_line(out, said);
        return Told { seat, said };
    };
    let Some(end) = hex::decode(nth(line, 3), bytes, 0) else {
        let said = say::bad_line(out, said);
        return Told { seat, said };
    };
    deliver_to(role, holds, front(bytes, end), seat, sent, got, out, said)
}

fn deliver_to(
    role: Role,
    holds: bool,
    m: &[u8],
    seat: Seat,
    sent: &mut Kept,
    got: &mut Kept,
    out: &mut [u8],
    said: usize,
) -> Told
    ensures { result.said ≤ length out.new }
{
    let Some(end) = seat.end else {
        let said = append(out, said, b"none");
        return Told { seat, said };
    };
    let mut output = [0u8; 4096];
    let stepped = delivered(role, end, seat.room, holds, m, sent, got, &mut output);
    told(seat, stepped, &output, out, said)
}

fn delivered(
    role: Role,
    end: End,
    room: Room,
    holds: bool,
    m: &[u8],
    sent: &mut [u8],
    got: &mut [u8],
    output: &mut [u8],
) -> Stepped
    requires { (length sent.old ≡ 8192) × (length got.old ≡ 8192) × (length output.old ≡ 4096) }
{
    let from = place(role);
    let to = from + size(room.sent);
    let until = from + size(room.got);
    let width = size(room.output);
    quick_deliver::deliver(
        end,
        holds,
        m,
        &mut sent[from..to],
        &mut got[from..until],
        &mut output[0..width],
    )
}

pub(crate) fn tick(
    role: Role,
    seat: Seat,
    sent: &Kept,
    got: &Kept,
    out: &mut [u8],
    said: usize,
) -> Told
    ensures { result.said ≤ length out.new }
{
    let Some(end) = seat.end else {
        let said = append(out, said, b"none");
        return Told { seat, said };
    };
    let mut output = [0u8; 4096];
    let stepped = ticked(role, end, seat.room, sent, got, &mut output);
    told(seat, stepped, &output, out, said)
}

fn ticked(role: Role, end: End, room: Room, sent: &[u8], got: &[u8], output: &mut [u8]) -> Stepped
    requires { length output.old ≡ 4096 }
{
    let width = size(room.output);
    quick_tick::tick(
        end,
        lent(role, room.sent, sent),
        lent(role, room.got, got),
        &mut output[0..width],
    )
}

// Keeps the end after a step, and says what the step answered.
fn told(seat: Seat, stepped: Stepped, output: &[u8], out: &mut [u8], said: usize) -> Told
    ensures { result.said ≤ length out.new }
{
    let seat = Seat {
        end: Some(stepped.end),
        ..seat
    };
    let said = answered(stepped.answer, output, out, said);
    Told { seat, said }
}

fn answered(answer: StepAnswer, output: &[u8], out: &mut [u8], said: usize) -> usize
    ensures { result ≤ length out.new }
{
    match answer {
        StepAnswer::Send(size) => {
            let said = append(out, said, b"send ");
            say::word(out, said, front(output, size as usize))
        }
        StepAnswer::Nothing => append(out, said, b"nothing"),
        StepAnswer::Refused(refusal) => say::refused(out, said, refusal.number()),
    }
}
