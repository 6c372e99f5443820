// The choice: first set, then first line, then lowest transform in each proposal.
ghost use Rattle.std.specs.Prelude.{Ok, ◌≡◌, ◌+◌, ◌≤◌};
ghost use Rattle.policy_lines.specs.Lines.{place};
ghost use Rattle.policy_choice.specs.Choice.{line_count, line_from, first_line, lowest_number, transforms_of, chosen, set_from, choose_from, body_at, sa_from, choice_told, choice};

use crate::{Choice, Transforms};
use message_chain::{Message, payload_at};
use policy_book::read_book;
use policy_lines::{LineNumber, quick_count};
use policy_suits::{lowest, set_suits};
use refusal::Refusal;
use sa_fields::{TransformNumber, proposal_number, transform_number};
use sa_items::{proposal, proposal_count, transform};
use sa_sets::{set, set_count};
use wire_read::{after, byte, front};

// How many lines the book has for an exchange.
pub fn line_count(exchange: u8, book: &[u8]) -> u8
    ensures { result ≡ line_count exchange book.now }
{
    if exchange == 2 {
        byte(book, 0)
    } else {
        quick_count(book)
    }
}

// The first line that a set suits of the n lines behind the last that was asked; line 0 where it suits none.
fn line_from(n: u8, last: LineNumber, exchange: u8, book: &[u8], s: &[u8]) -> LineNumber
    requires { n + last.0 ≤ 255 }
    ensures { result ≡ line_from n last exchange book.now s.now }
{
    if n == 0 {
        return LineNumber(0);
    }
    let line = LineNumber(last.0 + 1);
    if set_suits(exchange, line, book, s) {
        return line;
    }
    line_from(n - 1, line, exchange, book, s)
}

fn first_line(exchange: u8, book: &[u8], s: &[u8]) -> LineNumber
    ensures { result ≡ first_line exchange book.now s.now }
{
    line_from(line_count(exchange, book), LineNumber(0), exchange, book, s)
}

// Asked of a proposal that has a suiting transform; of any other it is the number of the first.
fn lowest_number(exchange: u8, line: LineNumber, book: &[u8], p: &[u8]) -> TransformNumber
    ensures { result ≡ lowest_number exchange (place line) book.now p.now }
{
    let found = lowest(exchange, line, book, p);
    match found {
        None => transform_number(transform(0, p)),
        Some(number) => number,
    }
}

fn transforms_of(exchange: u8, line: LineNumber, book: &[u8], s: &[u8]) -> Transforms
    ensures { result ≡ transforms_of exchange (place line) book.now s.now }
{
    let first = lowest_number(exchange, line, book, proposal(0, s));
    if proposal_count(s) == 1 {
        return Transforms::One(first);
    }
    Transforms::Two(first, lowest_number(exchange, line, book, proposal(1, s)))
}

fn chosen(exchange: u8, line: LineNumber, book: &[u8], s: &[u8]) -> Choice
    ensures { choice_told (Ok result) ≡ chosen exchange line book.now s.now }
{
    Choice {
        set: proposal_number(proposal(0, s)),
        line,
        transforms: transforms_of(exchange, line, book, s),
    }
}

fn set_from(n: u8, k: u8, exchange: u8, book: &[u8], body: &[u8]) -> Result<Choice, Refusal>
    requires { n + k ≤ 255 }
    ensures { choice_told result ≡ set_from n k exchange book.now body.now }
{
    if n == 0 {
        return Err(Refusal::NoProposalChosen);
    }
    let s = set(k, body);
    let line = first_line(exchange, book, s);
    if line.0 == 0 {
        return set_from(n - 1, k + 1, exchange, book, body);
    }
    Ok(chosen(exchange, line, book, s))
}

// The choice among the sets of an SA payload's body.
pub fn choose_from(exchange: u8, book: &[u8], body: &[u8]) -> Result<Choice, Refusal>
    ensures { choice_told result ≡ choose_from exchange book.now body.now }
{
    set_from(set_count(body), 0, exchange, book, body)
}

// The body of payload k, counted from 0.
pub fn body_at(k: u8, m: &[u8]) -> &[u8]
    ensures { result.now ≡ body_at k m.now }
{
    let p = payload_at(m, k);
    let start = p.start;
    let length = p.length;
    after(front(after(m, start), length), 4)
}

fn sa_from(n: u8, k: u8, m: &[u8]) -> &[u8]
    requires { n + k ≤ 255 }
    ensures { result.now ≡ sa_from n k m.now }
{
    if n == 0 {
        return front(m, 0);
    }
    let p = payload_at(m, k);
    if p.payloadtype == 1 {
        return body_at(k, m);
    }
    sa_from(n - 1, k + 1, m)
}

// The body of the SA payload among so many payloads; no bytes where there is none.
pub fn sa_of(count: u8, m: &[u8]) -> &[u8]
    ensures { result.now ≡ sa_from count 0 m.now }
{
    sa_from(count, 0, m)
}

// The body of the SA payload; a message has at most 32 payloads.
pub fn sa_body(m: &[u8]) -> &[u8]
    ensures { result.now ≡ sa_from 32 0 m.now }
{
    sa_of(32, m)
}

// Chooses for the SA payload of a message, by a book.
pub fn choose(book: &[u8], m: &[u8]) -> Result<Choice, Refusal>
    ensures { choice_told result ≡ choice book.now m.now }
{
    // Document 01 names this form: both answers are taken apart by let .. else.
    let Ok(_) = read_book(book) else {
        return Err(Refusal::BookUnlawful);
    };
    let read = message_chain::read(m);
    let Ok(Message { exchange, count }) = read else {
        return Err(read.unwrap_err());
    };
    let body = sa_of(count, m);
    if body.len() == 0 {
        return Err(Refusal::PayloadMalformed);
    }
    choose_from(exchange, book, body)
}
