// The lines on the table of SA entries: `add`, `remove`, `send` and `loss` with DST PROTOCOL SPI, and
// `packet DST PROTOCOL yes|no BYTES`. Every word is read before the table is touched, so a bad line changes nothing.
use bench_words::say::append;
use bench_words::{hex, integrity, number, say, words};
use refusal::Refusal;
use sequence_record::LossLine;
use sequence_table::table;
use sequence_table::table::{Key, Table};
use wire_read::front;

// DST and PROTOCOL, in words 1 and 2.
fn address_of(line: &[u8]) -> Option<(u32, u8)> {
    let destination = number::four_bytes(words::nth(line, 1))?;
    let protocol = number::decimal(words::nth(line, 2), 255)?;
    Some((destination, u8::try_from(protocol).ok()?))
}

// The key in words 1 to 3.
fn key_of(line: &[u8]) -> Option<Key> {
    let (destination, protocol) = address_of(line)?;
    let spi = number::four_bytes(words::nth(line, 3))?;
    Some(Key {
        destination,
        protocol,
        spi,
    })
}

pub(crate) fn add(line: &[u8], lives: &mut Table, out: &mut [u8], said: usize) -> Option<usize> {
    let key = key_of(line)?;
    Some(outcome(table::add(lives, key), out, said))
}

pub(crate) fn remove(line: &[u8], lives: &mut Table, out: &mut [u8], said: usize) -> Option<usize> {
    let key = key_of(line)?;
    Some(outcome(table::remove(lives, key), out, said))
}

fn outcome(told: Result<(), Refusal>, out: &mut [u8], said: usize) -> usize {
    match told {
        Ok(()) => append(out, said, b"done"),
        Err(refusal) => say::refused(out, said, refusal.number()),
    }
}

pub(crate) fn packet(
    line: &[u8],
    lives: &mut Table,
    bytes: &mut [u8],
    out: &mut [u8],
    said: usize,
) -> Option<usize> {
    let (destination, protocol) = address_of(line)?;
    let whole = integrity::read(words::nth(line, 3))?;
    let end = hex::decode(words::nth(line, 4), bytes, 0)?;
    let verdict = table::packet(lives, destination, protocol, whole, front(bytes, end));
    Some(say::verdict(out, said, verdict))
}

pub(crate) fn send(line: &[u8], lives: &mut Table, out: &mut [u8], said: usize) -> Option<usize> {
    let key = key_of(line)?;
    Some(sent(table::send(lives, key), out, said))
}

fn sent(sending: Result<u32, Refusal>, out: &mut [u8], said: usize) -> usize {
    match sending {
        Ok(n) => {
            let said = append(out, said, b"number");
            say::number(out, said, n as u64)
        }
        Err(refusal) => say::refused(out, said, refusal.number()),
    }
}

pub(crate) fn loss(line: &[u8], lives: &Table, out: &mut [u8], said: usize) -> Option<usize> {
    let key = key_of(line)?;
    Some(lost(table::loss(lives, key), out, said))
}

fn lost(counted: Result<LossLine, Refusal>, out: &mut [u8], said: usize) -> usize {
    match counted {
        Ok(line) => say::loss_line(out, said, line),
        Err(refusal) => say::refused(out, said, refusal.number()),
    }
}
