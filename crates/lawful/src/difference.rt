// What is said of a reply that is not lawful: what differs first and, with a book, what that chooses.
use crate::names;
use policy_choice::choose::{choose, sa_body};
use policy_choice::{Choice, Transforms};
use policy_lawful::{Difference, first_difference};
use refusal::Refusal;
use sa_fields::{ProposalNumber, TransformNumber, proposal_number, protocol};
use sa_items::proposal;
use sa_sets::{set, set_numbered};
use std::io;
use std::io::Write;

pub(crate) fn tell(
    out: &mut impl Write,
    book: Option<&[u8]>,
    offer: &[u8],
    reply: &[u8],
) -> io::Result<()> {
    match first_difference(book, offer, reply) {
        None => Ok(()),
        Some(Difference::OfferRefused(_)) => unread(out, "offer", offer),
        Some(Difference::BookRefused(_)) => write!(out, "book: cannot be read"),
        Some(Difference::ReplyRefused(_)) => unread(out, "reply", reply),
        Some(found) => {
            write!(out, "reply: ")?;
            of_set(out, found, sa_body(offer), set(0, sa_body(reply)))?;
            match book {
                None => Ok(()),
                Some(book) => chosen(out, choose(book, offer)),
            }
        }
    }
}

// A message that reads is refused only where it has no SA payload.
fn unread(out: &mut impl Write, name: &str, m: &[u8]) -> io::Result<()> {
    match message_chain::read(m) {
        Err(_) => write!(out, "{name}: cannot be read"),
        Ok(_) => write!(out, "{name}: has no SA payload"),
    }
}

// What differs of the reply's set, beside the body of the offer's SA payload.
fn of_set(out: &mut impl Write, found: Difference, offer: &[u8], s: &[u8]) -> io::Result<()> {
    let number = proposal_number(proposal(0, s));
    match found {
        Difference::SeveralSets(count) => write!(out, "has {count} sets"),
        Difference::SetNotOffered(_) => set_not_offered(out, number),
        Difference::Protocols => protocols(out, number, s, set_numbered(number, offer)),
        Difference::Order => order(out, number, s, set_numbered(number, offer)),
        Difference::SeveralTransforms { protocol, count } => several_transforms(
            out, number, protocol, count,
        ),
        _ => of_transform(out, found, number),
    }
}

// What differs of a transform, beside the offered one of its number.
fn of_transform(out: &mut impl Write, found: Difference, in_set: ProposalNumber) -> io::Result<()> {
    match found {
        Difference::TransformNotOffered { protocol, number } => {
            named_transform(out, in_set, protocol, number)?;
            write!(out, " is not offered")
        }
        Difference::Id {
            protocol,
            number,
            found,
            offered,
        } => {
            named_transform(out, in_set, protocol, number)?;
            write!(out, " has ID {found}, offered {offered}")
        }
        Difference::Attributes { protocol, number } => {
            named_transform(out, in_set, protocol, number)?;
            write!(out, " has other attributes than offered")
        }
        _ => of_choice(out, found, in_set),
    }
}

// What it takes and the book does not choose: a transform, or the set.
fn of_choice(out: &mut impl Write, found: Difference, in_set: ProposalNumber) -> io::Result<()> {
    write!(out, "takes ")?;
    match found {
        Difference::OtherTransform {
            protocol,
            found,
            chosen: _,
        } => names::transform(out, protocol, found),
        _ => names::set(out, in_set),
    }
}

fn set_not_offered(out: &mut impl Write, in_set: ProposalNumber) -> io::Result<()> {
    names::set(out, in_set)?;
    write!(out, " is not offered")
}

fn protocols(
    out: &mut impl Write,
    in_set: ProposalNumber,
    s: &[u8],
    offered: &[u8],
) -> io::Result<()> {
    let found = names::protocols_of(s);
    let wanted = names::protocols_of(offered);
    has(out, in_set, found, wanted)
}

fn order(out: &mut impl Write, in_set: ProposalNumber, s: &[u8], offered: &[u8]) -> io::Result<()> {
    let found = names::order(protocol(proposal(0, s)));
    let wanted = names::order(protocol(proposal(0, offered)));
    has(out, in_set, found, wanted)
}

fn has(out: &mut impl Write, in_set: ProposalNumber, found: &str, offered: &str) -> io::Result<()> {
    names::set(out, in_set)?;
    write!(out, " has {found}, offered {offered}")
}

fn several_transforms(
    out: &mut impl Write,
    in_set: ProposalNumber,
    protocol: u8,
    count: u8,
) -> io::Result<()> {
    names::set(out, in_set)?;
    if !names::is_main(protocol) {
        write!(out, ": {}", names::protocol(protocol))?;
    }
    write!(out, " has {count} transforms")
}

fn named_transform(
    out: &mut impl Write,
    in_set: ProposalNumber,
    protocol: u8,
    number: TransformNumber,
) -> io::Result<()> {
    names::set(out, in_set)?;
    write!(out, ": ")?;
    names::transform(out, protocol, number)
}

// The offer reads and the book is lawful, so that a refused choice is one of nothing.
fn chosen(out: &mut impl Write, choice: Result<Choice, Refusal>) -> io::Result<()> {
    write!(out, "; the book chooses ")?;
    match choice {
        Err(_) => write!(out, "nothing"),
        Ok(choice) => {
            names::set(out, choice.set)?;
            write!(out, " line {}", choice.line.0)?;
            numbers(out, choice.transforms)
        }
    }
}

fn numbers(out: &mut impl Write, transforms: Transforms) -> io::Result<()> {
    match transforms {
        Transforms::One(t) => write!(out, " transforms {}", t.0),
        Transforms::Two(t, u) => write!(out, " transforms {} {}", t.0, u.0),
    }
}
