// `state i|r`, `kept i|r` and `nonce i|r BYTES BYTES`: what an end holds, what is kept for it, and the nonce of a message.
ghost use Rattle.std.specs.Prelude.{◌≤◌, length};

use crate::seats::{Kept, Seat, lent, place};
use bench_words::say::append;
use bench_words::words::nth;
use bench_words::{hex, say};
use quick_end::{Agreed, End, Own, Progress, Role, Spis};
use wire_read::{after, front};
use wire_write::put_be32;

pub(crate) fn state(role: Role, seat: Seat, got: &Kept, out: &mut [u8], said: usize) -> usize
    ensures { result ≤ length out.new }
{
    let Some(end) = seat.end else {
        return append(out, said, b"none");
    };
    end_state(end, after(got, place(role)), out, said)
}

// Puts the state and the sends, and the agreed values where the end holds some: that is where it has got a message.
fn end_state(end: End, got: &[u8], out: &mut [u8], said: usize) -> usize
    ensures { result ≤ length out.new }
{
    let progress = end.progress;
    let said = state_and_sends(progress, out, said);
    if progress.gotsize == 0 {
        return said;
    }
    let agreed = progress.agreed;
    let own = end.own;
    let said = values(agreed, out, said);
    nonces(own, front(got, progress.gotsize as usize), out, said)
}

fn state_and_sends(progress: Progress, out: &mut [u8], said: usize) -> usize
    ensures { result ≤ length out.new }
{
    let state = progress.state;
    let said = state_name(state, out, said);
    let said = append(out, said, b" sends");
    say::number(out, said, progress.sends as u64)
}

fn state_name(state: quick_end::State, out: &mut [u8], said: usize) -> usize
    ensures { result ≤ length out.new }
{
    match state {
        quick_end::State::Idle => append(out, said, b"idle"),
        quick_end::State::Sent => append(out, said, b"sent"),
        quick_end::State::Half => append(out, said, b"half"),
        quick_end::State::Open => append(out, said, b"open"),
        quick_end::State::GivenUp => append(out, said, b"given-up"),
    }
}

fn values(agreed: Agreed, out: &mut [u8], said: usize) -> usize
    ensures { result ≤ length out.new }
{
    let set = agreed.set;
    let transforms = agreed.transforms;
    let said = append(out, said, b" set");
    let said = say::number(out, said, set.0 as u64);
    let said = append(out, said, b" transforms");
    let said = say::transforms(out, said, transforms);
    spis_of_both(agreed, out, said)
}

fn spis_of_both(agreed: Agreed, out: &mut [u8], said: usize) -> usize
    ensures { result ≤ length out.new }
{
    let initiator = agreed.initiator;
    let responder = agreed.responder;
    let said = append(out, said, b" initiator-spis");
    let said = spis(initiator, out, said);
    let said = append(out, said, b" responder-spis");
    spis(responder, out, said)
}

fn spis(spis: Spis, out: &mut [u8], said: usize) -> usize
    ensures { result ≤ length out.new }
{
    match spis {
        Spis::Alone(n) => spi(n, out, said),
        Spis::Both(n, m) => {
            let said = spi(n, out, said);
            spi(m, out, said)
        }
    }
}

// Puts a space and an SPI in hex.
fn spi(n: u32, out: &mut [u8], said: usize) -> usize
    ensures { result ≤ length out.new }
{
    let mut bytes = [0u8; 4];
    put_be32(&mut bytes, 0, n);
    let said = append(out, said, b" ");
    say::bytes(out, said, &bytes)
}

// The own nonce is in the record, the other's in the message that was got.
fn nonces(own: Own, got: &[u8], out: &mut [u8], said: usize) -> usize
    ensures { result ≤ length out.new }
{
    let role = own.role;
    let mine = front(&own.nonce, own.noncesize as usize);
    match role {
        Role::Initiator => {
            let theirs = quick_shape::nonce(Role::Responder, got, got);
            nonces_in_order(mine, theirs, out, said)
        }
        Role::Responder => {
            let theirs = quick_shape::nonce(Role::Initiator, got, got);
            nonces_in_order(theirs, mine, out, said)
        }
    }
}

fn nonces_in_order(initiators: &[u8], responders: &[u8], out: &mut [u8], said: usize) -> usize
    ensures { result ≤ length out.new }
{
    let said = append(out, said, b" initiator-nonce ");
    let said = say::word(out, said, initiators);
    let said = append(out, said, b" responder-nonce ");
    say::word(out, said, responders)
}

pub(crate) fn kept(
    role: Role,
    seat: Seat,
    sent: &Kept,
    got: &Kept,
    out: &mut [u8],
    said: usize,
) -> usize
    ensures { result ≤ length out.new }
{
    if seat.end.is_none() {
        return append(out, said, b"none");
    }
    let room = seat.room;
    let said = append(out, said, b"kept ");
    let said = say::word(out, said, lent(role, room.sent, sent));
    let said = append(out, said, b" ");
    say::word(out, said, lent(role, room.got, got))
}

pub(crate) fn nonce(line: &[u8], role: Role, bytes: &mut [u8], out: &mut [u8], said: usize) -> usize
    ensures { result ≤ length out.new }
{
    let Some((middle, end)) = hex::decode_two(nth(line, 2), nth(line, 3), bytes) else {
        return say::bad_line(out, said);
    };
    let both = front(bytes, end);
    let nonce = quick_shape::nonce(role, front(both, middle), after(both, middle));
    let said = append(out, said, b"nonce ");
    say::word(out, said, nonce)
}
