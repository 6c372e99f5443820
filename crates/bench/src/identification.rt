// `identity EXCHANGE BYTES`: whether the body of an identification payload is lawful in exchange 2 or 32.
use bench_words::say::append;
use bench_words::{hex, say, words};
use identity::identity_code;
use wire_read::front;

pub(crate) fn answer(line: &[u8], bytes: &mut [u8], out: &mut [u8], said: usize) -> Option<usize> {
    let exchange = exchange_of(words::nth(line, 1))?;
    let end = hex::decode(words::nth(line, 2), bytes, 0)?;
    Some(checked(exchange, front(bytes, end), out, said))
}

fn exchange_of(word: &[u8]) -> Option<u8> {
    match word {
        b"2" => Some(2),
        b"32" => Some(32),
        _ => None,
    }
}

fn checked(exchange: u8, body: &[u8], out: &mut [u8], said: usize) -> usize {
    match identity_code(exchange, body) {
        Ok(()) => append(out, said, b"done"),
        Err(refusal) => say::refused(out, said, refusal.number()),
    }
}
