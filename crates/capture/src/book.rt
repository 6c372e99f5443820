// The policy book that the first argument names.
use policy_book::read_book;
use refusal::Refusal;
use std::fs::File;
use std::io::Read;
use std::rt::Runtime;
use wire_read::front;

// A byte more than the longest book, so that one that is too long is seen to be.
const ROOM: u64 = 83;

// The longest path.
const LONGEST_PATH: usize = 4096;

// Why a book that was named is of no use.
pub(crate) enum Unusable {
    Refused(Refusal),
    Unread,
}

// Puts the bytes of the book into what is lent; none where none is named.
pub(crate) fn read<R: Runtime>(rt: &R, book: &mut Vec<u8, R::A>) -> Result<(), Unusable> {
    let mut path = [0u8; LONGEST_PATH];
    let length = rt.arg(1, &mut path).unwrap_or(0);
    if length == 0 {
        return Ok(());
    }
    let Ok(path) = str::from_utf8(front(&path, length)) else {
        return Err(Unusable::Unread);
    };
    let Ok(file) = File::open(rt, path) else {
        return Err(Unusable::Unread);
    };
    if file.take(ROOM).read_to_end(book).is_err() {
        return Err(Unusable::Unread);
    }
    match read_book(book) {
        Err(refusal) => Err(Unusable::Refused(refusal)),
        Ok(_) => Ok(()),
    }
}
