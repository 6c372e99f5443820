// Reads an offer, a reply to it and, where there is one, a policy book from standard input, and prints whether the reply is lawful;
// where it is not, the number of the refusal and, in words, what differs first.
#![tactic(auto)]

mod difference;
mod names;

use bench_words::number::decimal;
use policy_lawful::reply_lawful;
use std::env::FillError;
use std::io;
use std::io::{Read, Write};
use std::rt::Env;
use wire_read::{after, front};

// For each of the two messages, and for the book, a byte more than the longest, so that what is too long is seen to be.
const LONGEST: u64 = 16469;

// How many bytes are the offer, the reply and, where there is one, the book.
#[derive(Clone, Copy)]
struct Sizes {
    offer: usize,
    reply: usize,
    book: Option<usize>,
}

fn main(rt: HostRuntime) -> io::Result<()> {
    let mut input = Vec::new(rt.alloc());
    rt.stdin().take(LONGEST).read_to_end(&mut input)?;
    apart(&mut rt.stdout(), &input, sizes_given(&rt))
}

// The arguments say it. A third stands for a book, whatever it is.
fn sizes_given(rt: &impl Env) -> Sizes {
    Sizes {
        offer: size_given(rt, 1).unwrap_or(0),
        reply: size_given(rt, 2).unwrap_or(0),
        book: size_given(rt, 3),
    }
}

// Nothing where the argument is missing. One that is no number in decimal or none of 32 bits leaves no bytes.
fn size_given(rt: &impl Env, place: usize) -> Option<usize> {
    let mut word = [0u8; 10];
    match rt.arg(place, &mut word) {
        Ok(length) => Some(decimal(front(&word, length), u32::MAX).unwrap_or(0) as usize),
        Err(FillError::TooLong) => Some(0),
        Err(FillError::NotPresent) => None,
    }
}

fn apart(out: &mut impl Write, s: &[u8], sizes: Sizes) -> io::Result<()> {
    let behind = after(s, sizes.offer);
    let last = after(behind, sizes.reply);
    let book = match sizes.book {
        Some(size) => Some(front(last, size)),
        None => None,
    };
    judge(out, book, front(s, sizes.offer), front(behind, sizes.reply))
}

fn judge(out: &mut impl Write, book: Option<&[u8]>, offer: &[u8], reply: &[u8]) -> io::Result<()> {
    match reply_lawful(book, offer, reply) {
        Ok(()) => writeln!(out, "lawful"),
        Err(refusal) => {
            writeln!(out, "refused {refusal}")?;
            difference::tell(out, book, offer, reply)?;
            writeln!(out)
        }
    }
}
