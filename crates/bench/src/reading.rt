// `read BYTES`: what a message reads as.
use bench_words::say::append;
use bench_words::{hex, say, words};
use message_chain::{Message, Payload};
use wire_read::front;

pub(crate) fn answer(line: &[u8], bytes: &mut [u8], out: &mut [u8], said: usize) -> Option<usize> {
    let end = hex::decode(words::nth(line, 1), bytes, 0)?;
    Some(told(front(bytes, end), out, said))
}

fn told(m: &[u8], out: &mut [u8], said: usize) -> usize {
    match message_chain::read(m) {
        Err(refusal) => say::refused(out, said, refusal.number()),
        Ok(Message { exchange, count }) => {
            let said = append(out, said, b"read");
            let said = say::number(out, said, exchange as u64);
            let said = say::number(out, said, count as u64);
            payloads(m, count, out, said)
        }
    }
}

fn payloads(m: &[u8], count: u8, out: &mut [u8], said: usize) -> usize {
    let mut said = said;
    for k in 0..count {
        said = payload(message_chain::payload_at(m, k), out, said);
    }
    said
}

// Puts ` TYPE@START+LENGTH`.
fn payload(p: Payload, out: &mut [u8], said: usize) -> usize {
    let said = say::number(out, said, p.payloadtype as u64);
    let said = append(out, said, b"@");
    let said = say::digits(out, said, p.start as u64);
    let said = append(out, said, b"+");
    say::digits(out, said, p.length as u64)
}
