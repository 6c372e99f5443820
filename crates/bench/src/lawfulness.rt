// `lawful OFFER REPLY [BOOK]`: whether a reply is lawful beside the offer that it answers and, where there is one, a book.
use bench_words::say::append;
use bench_words::{hex, say, words};
use policy_lawful::reply_lawful;
use wire_read::{after, front};

pub(crate) fn answer(line: &[u8], bytes: &mut [u8], out: &mut [u8], said: usize) -> Option<usize> {
    let (middle, end) = hex::decode_two(words::nth(line, 1), words::nth(line, 2), bytes)?;
    let booked = words::count(line) == 4;
    // The book's bytes stand behind those of the two messages; there are none where the line has no book.
    let last = if booked {
        hex::decode(words::nth(line, 3), bytes, end)?
    } else {
        end
    };
    Some(judge(booked, front(bytes, last), middle, end, out, said))
}

// Of the three, which stand one behind the other: the reply from the middle on, the book from the end of that on.
fn judge(
    booked: bool,
    all: &[u8],
    middle: usize,
    end: usize,
    out: &mut [u8],
    said: usize,
) -> usize {
    let both = front(all, end);
    let book = booked.then_some(after(all, end));
    match reply_lawful(book, front(both, middle), after(both, middle)) {
        Err(refusal) => say::refused(out, said, refusal.number()),
        Ok(()) => append(out, said, b"lawful"),
    }
}
