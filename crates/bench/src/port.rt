// `port BYTES`: what a datagram at port 4500 is.
use bench_words::say::append;
use bench_words::{hex, say, words};
use port4500::Datagram;
use refusal::Refusal;
use wire_read::front;

pub(crate) fn answer(line: &[u8], bytes: &mut [u8], out: &mut [u8], said: usize) -> Option<usize> {
    let end = hex::decode(words::nth(line, 1), bytes, 0)?;
    Some(told(port4500::read(front(bytes, end)), out, said))
}

fn told(datagram: Result<Datagram, Refusal>, out: &mut [u8], said: usize) -> usize {
    match datagram {
        Ok(Datagram::Keepalive) => append(out, said, b"keepalive"),
        Ok(Datagram::KeyExchange { start, length }) => {
            let said = append(out, said, b"key-exchange");
            let said = say::number(out, said, start as u64);
            say::number(out, said, length as u64)
        }
        Ok(Datagram::Esp { length }) => {
            let said = append(out, said, b"esp");
            say::number(out, said, length as u64)
        }
        Err(refusal) => say::refused(out, said, refusal.number()),
    }
}
