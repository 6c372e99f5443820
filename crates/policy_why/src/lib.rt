// Why a set of an offer does not suit a line of the book: the refusals, and the cause at each place.
#![tactic(auto)]

ghost use Rattle.std.specs.Prelude.{◌≡◌, Ok};
ghost use Rattle.message_chain.specs.Message.{message};
ghost use Rattle.policy_why.specs.Offer.{offer_told};
ghost use Rattle.policy_why.specs.Why.{why_told, message_offer, offered, is_place, cause_in, why};

use message_chain::Message;
use policy_book::read_book;
use policy_cause::{Cause, transform_cause};
use policy_choice::choose::{line_count, sa_of};
use policy_lines::LineNumber;
use policy_suits::protocols_suit;
use refusal::Refusal;
use sa_fields::{protocol, transform_count};
use sa_items::{proposal, proposal_count, transform};
use sa_sets::{set, set_count};

// Places of a set, of a line of the exchange's, of a proposal and of a transform, each counted from 0.
#[derive(Clone, Copy, Debug, PartialEq, Eq)]
pub struct Places {
    pub set: u8,
    pub line: u8,
    pub proposal: u8,
    pub transform: u8,
}

// What is said at places: that the set's protocols are not the line's, or the transform's own cause, none where it suits.
#[derive(Clone, Copy, Debug, PartialEq, Eq)]
pub enum Why {
    NoSuchPlace,
    Protocols,
    Transform(Option<Cause>),
}

// Whether there is something to say of a message: it is readable, and has an SA payload.
pub fn message_offer(m: &[u8]) -> Result<Message, Refusal>
    ensures { offer_told result ≡ message_offer m.now (message m.now) }
{
    let read = message_chain::read(m)?;
    if sa_of(read.count, m).len() == 0 {
        return Err(Refusal::PayloadMalformed);
    }
    Ok(read)
}

// Whether there is something to say of this book and this message.
pub fn offered(book: &[u8], m: &[u8]) -> Result<Message, Refusal>
    ensures { offer_told result ≡ offered book.now m.now }
{
    read_book(book)?;
    message_offer(m)
}

// Whether set, proposal and transform are there in an SA payload's body.
pub fn is_place(body: &[u8], at: Places) -> bool
    ensures { result ≡ is_place body.now at }
{
    let s = set(at.set, body);
    let p = proposal(at.proposal, s);
    (at.set < set_count(body))
        & (at.proposal < proposal_count(s))
        & (at.transform < transform_count(p))
}

fn cause_in(exchange: u8, book: &[u8], body: &[u8], at: Places) -> Why
    ensures { why_told (Ok result) ≡ cause_in exchange book.now body.now at }
{
    if line_count(exchange, book) <= at.line {
        return Why::NoSuchPlace;
    }
    if !is_place(body, at) {
        return Why::NoSuchPlace;
    }
    let s = set(at.set, body);
    let line = LineNumber(at.line + 1);
    if !protocols_suit(exchange, line, book, s) {
        return Why::Protocols;
    }
    let p = proposal(at.proposal, s);
    let t = transform(at.transform, p);
    Why::Transform(transform_cause(exchange, line, book, protocol(p), t))
}

// The cause at these places of the offer.
pub fn cause_at(book: &[u8], m: &[u8], at: Places) -> Result<Why, Refusal>
    ensures { why_told result ≡ why book.now m.now at }
{
    let offer = offered(book, m)?;
    let body = sa_of(offer.count, m);
    Ok(cause_in(offer.exchange, book, body, at))
}
