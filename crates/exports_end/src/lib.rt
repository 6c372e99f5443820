// A quick mode end as the 398 bytes that a caller in another language lends: its progress in the first 32, what it is given once behind them.
// Every function takes any bytes: one past the end reads as 0, and is not written.
#![tactic(auto)]

ghost use Rattle.std.specs.Prelude.{◌≡◌};
ghost use Rattle.wire_write.specs.Put.{paste};
ghost use Rattle.exports_end.specs.Ends.{state_number, state_of, role_number, role_of, transforms_values, spis_values, spis_bytes, agreed_bytes, progress_bytes, own_bytes, end_bytes, transforms_of, spis_in, agreed_of, progress_of, own_in, end_of};

use policy_choice::Transforms;
use quick_end::{Agreed, End, Own, Progress, Role, Spis, State};
use sa_fields::{ProposalNumber, TransformNumber};
use wire_read::{after, be16, be32, be64, byte};
use wire_write::{put_be16, put_be32, put_be64, put_byte, put_bytes};

pub fn state_number(state: State) -> u8
    ensures { result ≡ state_number state }
{
    state as u8
}

// C lends any byte, and each is read as some state or role, so that there is nothing to refuse.
fn state_of(number: u8) -> State
    ensures { result ≡ state_of number }
{
    match number {
        0 => State::Idle,
        1 => State::Sent,
        2 => State::Half,
        3 => State::Open,
        _ => State::GivenUp,
    }
}

fn role_number(role: Role) -> u8
    ensures { result ≡ role_number role }
{
    role as u8
}

fn role_of(number: u8) -> Role
    ensures { result ≡ role_of number }
{
    match number {
        0 => Role::Initiator,
        _ => Role::Responder,
    }
}

// How many, the first, and the second or 0.
pub fn transforms_values(transforms: Transforms) -> [u8; 3]
    ensures { result ≡ transforms_values transforms }
{
    match transforms {
        Transforms::One(first) => [1, first.0, 0],
        Transforms::Two(first, second) => [2, first.0, second.0],
    }
}

pub fn spis_values(spis: Spis) -> [u64; 3]
    ensures { result ≡ spis_values spis }
{
    match spis {
        Spis::Alone(first) => [1, first as u64, 0],
        Spis::Both(first, second) => [2, first as u64, second as u64],
    }
}

// Writes the values of SPIs in one byte, four and four. A place of one byte keeps the sums from overflowing.
fn put_spis(s: &mut [u8], at: u8, spis: Spis)
    ensures { s.new ≡ paste s.old at (spis_bytes spis) }
{
    let values = spis_values(spis);
    let place = at as usize;
    put_byte(s, place, (values[0] % 256) as u8);
    put_be32(s, place + 1, (values[1] % 4294967296) as u32);
    put_be32(s, place + 5, (values[2] % 4294967296) as u32);
}

// Writes what is agreed behind the 10 bytes of a progress that are written.
fn put_agreed(s: &mut [u8], agreed: Agreed)
    ensures { s.new ≡ paste s.old 10 (agreed_bytes agreed) }
{
    let set = agreed.set;
    let transforms = agreed.transforms;
    let initiator = agreed.initiator;
    let responder = agreed.responder;
    let values = transforms_values(transforms);
    put_bytes(s, 10, &[set.0, values[0], values[1], values[2]]);
    put_spis(s, 14, initiator);
    put_spis(s, 23, responder);
}

// Writes a progress over the first 32 bytes.
pub fn put_progress(s: &mut [u8], progress: Progress)
    ensures { s.new ≡ paste s.old 0 (progress_bytes progress) }
{
    let state = progress.state;
    let agreed = progress.agreed;
    put_bytes(s, 0, &[state_number(state), progress.sends]);
    put_be32(s, 2, progress.id);
    put_be16(s, 6, progress.sentsize);
    put_be16(s, 8, progress.gotsize);
    put_agreed(s, agreed);
}

// Writes what an end is given once, behind its progress.
fn put_own(s: &mut [u8], own: Own)
    ensures { s.new ≡ paste s.old 32 (own_bytes own) }
{
    let role = own.role;
    put_bytes(s, 32, &[role_number(role), own.booksize]);
    put_be16(s, 34, own.noncesize);
    put_be64(s, 36, own.icookie);
    put_be64(s, 44, own.rcookie);
    put_be32(s, 52, own.ah);
    put_be32(s, 56, own.esp);
    put_bytes(s, 60, &own.book);
    put_bytes(s, 142, &own.nonce);
}

pub fn put_end(s: &mut [u8], end: End)
    ensures { s.new ≡ paste s.old 0 (end_bytes end) }
{
    let own = end.own;
    let progress = end.progress;
    put_progress(s, progress);
    put_own(s, own);
}

fn transforms_of(s: &[u8]) -> Transforms
    ensures { result ≡ transforms_of s.now }
{
    let first = TransformNumber(byte(s, 1));
    if byte(s, 0) == 2 {
        return Transforms::Two(first, TransformNumber(byte(s, 2)));
    }
    Transforms::One(first)
}

fn spis_in(s: &[u8]) -> Spis
    ensures { result ≡ spis_in s.now }
{
    let first = be32(s, 1);
    if byte(s, 0) == 2 {
        return Spis::Both(first, be32(s, 5));
    }
    Spis::Alone(first)
}

fn agreed_of(s: &[u8]) -> Agreed
    ensures { result ≡ agreed_of s.now }
{
    let transforms = transforms_of(after(s, 1));
    let initiator = spis_in(after(s, 4));
    let responder = spis_in(after(s, 13));
    Agreed {
        set: ProposalNumber(byte(s, 0)),
        transforms,
        initiator,
        responder,
    }
}

pub fn progress_of(s: &[u8]) -> Progress
    ensures { result ≡ progress_of s.now }
{
    let state = state_of(byte(s, 0));
    let agreed = agreed_of(after(s, 10));
    Progress {
        state,
        sends: byte(s, 1),
        id: be32(s, 2),
        sentsize: be16(s, 6),
        gotsize: be16(s, 8),
        agreed,
    }
}

fn own_in(s: &[u8]) -> Own
    ensures { result ≡ own_in s.now }
{
    let role = role_of(byte(s, 0));
    let mut book = [0; 82];
    put_bytes(&mut book, 0, after(s, 28));
    let mut nonce = [0; 256];
    put_bytes(&mut nonce, 0, after(s, 110));
    Own {
        role,
        icookie: be64(s, 4),
        rcookie: be64(s, 12),
        ah: be32(s, 20),
        esp: be32(s, 24),
        booksize: byte(s, 1),
        book,
        noncesize: be16(s, 2),
        nonce,
    }
}

pub fn end_of(s: &[u8]) -> End
    ensures { result ≡ end_of s.now }
{
    let progress = progress_of(s);
    let own = own_in(after(s, 32));
    End { own, progress }
}
