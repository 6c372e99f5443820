// `reply BOOK AH ESP ROOM BYTES`: the reply that a book makes to a message, with own SPIs, in a lent buffer of ROOM bytes.
use bench_words::say::append;
use bench_words::{hex, number, say, words};
use policy_reply::OwnSpis;
use wire_read::{after, front};

#[derive(Clone, Copy)]
struct Own {
    spis: OwnSpis,
    room: usize,
}

// The most that ROOM may ask for.
const MOST: usize = 4096;

// AH, ESP and ROOM, in words 2 to 4.
fn own_of(line: &[u8]) -> Option<Own> {
    let ah = number::decimal(words::nth(line, 2), u32::MAX)?;
    let esp = number::decimal(words::nth(line, 3), u32::MAX)?;
    let room = number::decimal(words::nth(line, 4), MOST as u32)? as usize;
    let spis = OwnSpis { ah, esp };
    Some(Own { spis, room })
}

pub(crate) fn answer(line: &[u8], bytes: &mut [u8], out: &mut [u8], said: usize) -> Option<usize> {
    let own = own_of(line)?;
    let (middle, end) = hex::decode_two(words::nth(line, 1), words::nth(line, 5), bytes)?;
    let both = front(bytes, end);
    let mut lent = [0u8; MOST];
    let room = lent.get_mut(..own.room)?;
    Some(replied(
        front(both, middle),
        after(both, middle),
        own.spis,
        room,
        out,
        said,
    ))
}

fn replied(
    book: &[u8],
    m: &[u8],
    own: OwnSpis,
    lent: &mut [u8],
    out: &mut [u8],
    said: usize,
) -> usize {
    match policy_reply::reply(book, m, own, lent) {
        Err(refusal) => say::refused(out, said, refusal.number()),
        Ok(size) => {
            let said = append(out, said, b"reply ");
            say::bytes(out, said, front(lent, size))
        }
    }
}
