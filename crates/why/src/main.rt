// Reads a policy book and then a message from standard input, and prints of every set that the message offers and every line that
// the book has for its exchange whether the set suits the line, or at what it fails.
#![tactic(auto)]

mod cause;
mod names;

use bench_words::number::decimal;
use message_chain::Message;
use policy_cause::{PairCause, pair_cause, transform_cause};
use policy_choice::choose::{line_count, sa_of};
use policy_lines::{LineNumber, main_seconds, quick_mode, quick_protocols, quick_seconds};
use refusal::Refusal;
use sa_fields::{proposal_number, protocol, transform_count, transform_number};
use sa_items::{proposal, proposal_count};
use sa_sets::set_count;
use std::env::FillError;
use std::io;
use std::io::{Read, Write};
use std::rt::Env;
use wire_read::{after, front};

// A byte more than the longest book and the longest message, so that a message that is too long is seen to be.
const LONGEST: u64 = 8275;

fn main(rt: HostRuntime) -> io::Result<()> {
    let mut input = Vec::new(rt.alloc());
    rt.stdin().take(LONGEST).read_to_end(&mut input)?;
    why(&mut rt.stdout(), &input, border_in(&rt, &input))
}

// The border is where the book ends and the message begins.
fn why(out: &mut impl Write, s: &[u8], border: Option<usize>) -> io::Result<()> {
    match border {
        None => refused(out, Refusal::BookUnlawful),
        Some(size) => offer(out, front(s, size), after(s, size)),
    }
}

fn refused(out: &mut impl Write, refusal: Refusal) -> io::Result<()> {
    writeln!(out, "refused {refusal}")
}

// The first argument says how many bytes are the book; where there is none, the book's counts do. An argument that is no number in
// decimal, or none of 32 bits, leaves no book to judge.
fn border_in(rt: &impl Env, s: &[u8]) -> Option<usize> {
    let mut word = [0u8; 10];
    match rt.arg(1, &mut word) {
        Ok(length) => Some(decimal(front(&word, length), u32::MAX)? as usize),
        Err(FillError::TooLong) => None,
        Err(FillError::NotPresent) => border_counted(s),
    }
}

fn border_counted(s: &[u8]) -> Option<usize> {
    if policy_book::book_in_front(s) {
        Some(policy_lines::book_size(s) as usize)
    } else {
        None
    }
}

fn offer(out: &mut impl Write, book: &[u8], m: &[u8]) -> io::Result<()> {
    match policy_why::offered(book, m) {
        Err(refusal) => refused(out, refusal),
        Ok(Message { exchange, count }) => {
            if line_count(exchange, book) == 0 {
                no_lines(out, exchange)
            } else {
                sets(out, exchange, book, sa_of(count, m))
            }
        }
    }
}

fn no_lines(out: &mut impl Write, exchange: u8) -> io::Result<()> {
    if exchange == 2 {
        writeln!(out, "the book has no main lines")
    } else {
        writeln!(out, "the book has no quick lines")
    }
}

fn sets(out: &mut impl Write, exchange: u8, book: &[u8], body: &[u8]) -> io::Result<()> {
    for k in 0..set_count(body) {
        for i in 0..line_count(exchange, book) {
            let pair = Pair {
                exchange,
                line: LineNumber(i + 1),
                book,
                set: sa_sets::set(k, body),
            };
            pair.tell(out)?;
        }
    }
    Ok(())
}

// A set that the message offers, and a line that the book has for its exchange.
#[derive(Clone, Copy)]
struct Pair<'a> {
    exchange: u8,
    line: LineNumber,
    book: &'a [u8],
    set: &'a [u8],
}

impl<'a> Pair<'a> {
    fn tell(self, out: &mut impl Write) -> io::Result<()> {
        match pair_cause(self.exchange, self.line, self.book, self.set) {
            None => {
                self.begin(out)?;
                writeln!(out, "suits")
            }
            Some(PairCause::Protocols) => {
                self.begin(out)?;
                writeln!(
                    out,
                    "protocols: the set has {}",
                    names::protocols_of(self.set)
                )
            }
            Some(PairCause::Transforms) => self.transforms(out),
        }
    }

    fn transforms(self, out: &mut impl Write) -> io::Result<()> {
        for k in 0..proposal_count(self.set) {
            let p = proposal(k, self.set);
            for t in 0..transform_count(p) {
                self.begin(out)?;
                self.transform(out, protocol(p), sa_items::transform(t, p))?;
            }
        }
        Ok(())
    }

    fn transform(self, out: &mut impl Write, protocol: u8, t: &[u8]) -> io::Result<()> {
        if self.exchange != 2 {
            write!(out, "{} ", names::protocol(protocol))?;
        }
        write!(out, "transform {}", transform_number(t).0)?;
        match transform_cause(self.exchange, self.line, self.book, protocol, t) {
            None => cause::would_do(out, protocol)?,
            Some(cause) => cause::cause(out, self.exchange, cause)?,
        }
        writeln!(out)
    }

    // What is said first of a set and a line: their numbers, and what the line wants.
    fn begin(self, out: &mut impl Write) -> io::Result<()> {
        let number = proposal_number(proposal(0, self.set)).0;
        write!(out, "set {number}, line {} (", self.line.0)?;
        let i = self.line.place();
        if self.exchange == 2 {
            write!(out, "main mode, to {}", main_seconds(i, self.book))?;
        } else {
            let protocols = names::protocols(quick_protocols(i, self.book));
            let mode = names::mode(quick_mode(i, self.book) as u32);
            write!(
                out,
                "{protocols}, {mode}, to {}",
                quick_seconds(i, self.book)
            )?;
        }
        write!(out, " s): ")
    }
}
