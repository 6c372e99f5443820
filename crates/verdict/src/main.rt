// Reads a policy book and then a message from standard input, and prints what the message is and what the policy chooses.
#![tactic(auto)]

use message_chain::{Message, Payload};
use policy_choice::{Choice, Transforms};
use refusal::Refusal;
use std::io;
use std::io::{Read, Write};
use wire_read::{after, front};

// A byte more than the longest book and the longest message, so that a message that is too long is seen to be.
const LONGEST: u64 = 8275;

fn main(rt: HostRuntime) -> io::Result<()> {
    let mut input = Vec::new(rt.alloc());
    rt.stdin().take(LONGEST).read_to_end(&mut input)?;
    verdict(&input, &mut rt.stdout())
}

fn verdict(s: &[u8], out: &mut impl Write) -> io::Result<()> {
    if !policy_book::book_in_front(s) {
        return refused(out, Refusal::BookUnlawful);
    }
    let size = policy_lines::book_size(s) as usize;
    let book = front(s, size);
    let m = after(s, size);
    match message_chain::read(m) {
        Err(refusal) => refused(out, refusal),
        Ok(Message { exchange, count }) => {
            writeln!(out, "exchange {exchange} payloads {count}")?;
            payloads(out, m, count)?;
            choice(out, policy_choice::choose::choose(book, m))
        }
    }
}

fn payloads(out: &mut impl Write, m: &[u8], count: u8) -> io::Result<()> {
    for k in 0..count {
        payload(out, message_chain::payload_at(m, k))?;
    }
    Ok(())
}

fn payload(out: &mut impl Write, p: Payload) -> io::Result<()> {
    writeln!(
        out,
        "payload {} at {} length {}",
        p.payloadtype, p.start, p.length
    )
}

// The message reads, so that a malformed payload (16) says that it has no SA payload: then nothing is chosen, and nothing said.
fn choice(out: &mut impl Write, chosen: Result<Choice, Refusal>) -> io::Result<()> {
    match chosen {
        Err(Refusal::PayloadMalformed) => Ok(()),
        Err(refusal) => refused(out, refusal),
        Ok(choice) => {
            write!(out, "chosen set {} line {}", choice.set.0, choice.line.0)?;
            numbers(out, choice.transforms)?;
            writeln!(out)
        }
    }
}

fn numbers(out: &mut impl Write, transforms: Transforms) -> io::Result<()> {
    match transforms {
        Transforms::One(t) => write!(out, " transforms {}", t.0),
        Transforms::Two(t, u) => write!(out, " transforms {} {}", t.0, u.0),
    }
}

fn refused(out: &mut impl Write, refusal: Refusal) -> io::Result<()> {
    writeln!(out, "refused {refusal}")
}
