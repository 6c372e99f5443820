// Whether a reply is lawful beside the offer that it answers and, where there is one, a book; and what differs first.
#![tactic(auto)]

ghost use Rattle.std.specs.Prelude.{◌≡◌, Option, Some, Ok, is_some};
ghost use Rattle.wire_read.specs.Tests.{if◌then◌otherwise◌};
ghost use Rattle.message_chain.specs.Message.{message};
ghost use Rattle.policy_book.specs.Book.{book_read};
ghost use Rattle.policy_choice.specs.Choice.{choice_told, choose_from};
ghost use Rattle.refusal.specs.Numbers.{number};
ghost use Rattle.policy_why.specs.Why.{message_offer};
ghost use Rattle.policy_lawful.specs.Difference.{Nothing, Refused, difference_told, lawful_told, book_bytes, Tells};
ghost use Rattle.policy_lawful.specs.Lawful.{offer_refused, book_refused, reply_refused, offered_transform, several_transforms, transform_not_offered, other_id, other_attributes, of_each, last, has_protocol, same_protocols, same_order, protocols_differ, transforms_differ, replied_number, offered_set, sets_differ, bodies_differ, other_transform, other_transforms, other_set, choice_differs, unread, compared, first_difference, lawful_by, reply_lawful};

use policy_book::read_book;
use policy_choice::choose::{choose_from, sa_body};
use policy_choice::{Choice, Transforms};
use policy_why::message_offer;
use refusal::Refusal;
use sa_fields::{
    ProposalNumber, TransformNumber, attributes_of, proposal_number, protocol, transform_count,
    transform_id, transform_number,
};
use sa_items::{proposal, proposal_count, transform, transform_numbered};
use sa_sets::{set, set_count, set_numbered};
use wire_read::{byte, equal};

// What differs first: which of the three cannot be read, and why; how the reply does not repeat the offer; or what the book
// chooses instead. A protocol is that of the proposal in which it differs.
#[derive(Clone, Copy, Debug, PartialEq, Eq)]
pub enum Difference {
    OfferRefused(Refusal),
    BookRefused(Refusal),
    ReplyRefused(Refusal),
    SeveralSets(u8),
    SetNotOffered(ProposalNumber),
    Protocols,
    Order,
    SeveralTransforms {
        protocol: u8,
        count: u8,
    },
    TransformNotOffered {
        protocol: u8,
        number: TransformNumber,
    },
    Id {
        protocol: u8,
        number: TransformNumber,
        found: u8,
        offered: u8,
    },
    Attributes {
        protocol: u8,
        number: TransformNumber,
    },
    OtherSet {
        found: ProposalNumber,
        chosen: ProposalNumber,
    },
    OtherTransform {
        protocol: u8,
        found: TransformNumber,
        chosen: TransformNumber,
    },
    NothingChosen,
}

impl Difference {
    // How a reply that differs so is refused.
    fn refusal(self) -> Refusal
        ensures { Refused (number result) ≡ lawful_by (difference_told (Some self)) }
    {
        match self {
            Difference::OfferRefused(refusal) => refusal,
            Difference::BookRefused(refusal) => refusal,
            Difference::ReplyRefused(refusal) => refusal,
            Difference::OtherSet {
                found: _,
                chosen: _,
            } => Refusal::NoProposalChosen,
            Difference::OtherTransform {
                protocol: _,
                found: _,
                chosen: _,
            } => Refusal::NoProposalChosen,
            Difference::NothingChosen => Refusal::NoProposalChosen,
            _ => Refusal::BadProposalSyntax,
        }
    }
}

// This one and `reply_refused` are two lines each: one function of both would take the variant as a closure and be longer.
fn offer_refused(m: &[u8]) -> Option<Difference>
    ensures { difference_told result ≡ offer_refused (message_offer m.now (message m.now)) }
{
    let refusal = message_offer(m).err()?;
    Some(Difference::OfferRefused(refusal))
}

fn book_refused(book: Option<&[u8]>) -> Option<Difference>
    ensures { difference_told result ≡ (if is_some book.entry then book_refused (book_read (book_bytes book.entry)) otherwise Nothing) }
{
    let refusal = read_book(book?).err()?;
    Some(Difference::BookRefused(refusal))
}

fn reply_refused(m: &[u8]) -> Option<Difference>
    ensures { difference_told result ≡ reply_refused (message_offer m.now (message m.now)) }
{
    let refusal = message_offer(m).err()?;
    Some(Difference::ReplyRefused(refusal))
}

// The offered transform that has the number of the reply's, of the proposals p and q.
fn offered_transform<'a>(p: &'a [u8], q: &[u8]) -> &'a [u8]
    ensures { result.now ≡ offered_transform p.now q.now }
{
    transform_numbered(transform_number(transform(0, q)), p)
}

fn several_transforms(q: &[u8]) -> Option<Difference>
    ensures { difference_told result ≡ several_transforms q.now }
{
    let count = transform_count(q);
    if count == 1 {
        return None;
    }
    let protocol = protocol(q);
    Some(Difference::SeveralTransforms { protocol, count })
}

fn transform_not_offered(p: &[u8], q: &[u8]) -> Option<Difference>
    ensures { difference_told result ≡ transform_not_offered p.now q.now }
{
    if offered_transform(p, q).len() != 0 {
        return None;
    }
    let protocol = protocol(q);
    let number = transform_number(transform(0, q));
    Some(Difference::TransformNotOffered { protocol, number })
}

fn other_id(p: &[u8], q: &[u8]) -> Option<Difference>
    ensures { difference_told result ≡ other_id p.now q.now }
{
    let t = transform(0, q);
    let found = transform_id(t);
    let offered = transform_id(offered_transform(p, q));
    if found == offered {
        return None;
    }
    let protocol = protocol(q);
    let number = transform_number(t);
    Some(Difference::Id {
        protocol,
        number,
        found,
        offered,
    })
}

fn other_attributes(p: &[u8], q: &[u8]) -> Option<Difference>
    ensures { difference_told result ≡ other_attributes p.now q.now }
{
    let t = transform(0, q);
    if equal(attributes_of(t), attributes_of(offered_transform(p, q))) {
        return None;
    }
    let protocol = protocol(q);
    let number = transform_number(t);
    Some(Difference::Attributes { protocol, number })
}

// The last proposal of a set.
fn last(s: &[u8]) -> &[u8]
    ensures { result.now ≡ last s.now }
{
    let count = proposal_count(s);
    if count == 0 {
        return proposal(0, s);
    }
    proposal(count - 1, s)
}

fn has_protocol(s: &[u8], wanted: u8) -> bool
    ensures { result ≡ has_protocol s.now wanted }
{
    (protocol(proposal(0, s)) == wanted) | (protocol(last(s)) == wanted)
}

fn same_protocols(offered: &[u8], s: &[u8]) -> bool
    ensures { result ≡ same_protocols offered.now s.now }
{
    (proposal_count(offered) == proposal_count(s))
        & has_protocol(offered, protocol(proposal(0, s)))
        & has_protocol(offered, protocol(last(s)))
}

fn same_order(offered: &[u8], s: &[u8]) -> bool
    ensures { result ≡ same_order offered.now s.now }
{
    (protocol(proposal(0, offered)) == protocol(proposal(0, s)))
        & (protocol(last(offered)) == protocol(last(s)))
}

fn protocols_differ(offered: &[u8], s: &[u8]) -> Option<Difference>
    ensures { difference_told result ≡ protocols_differ offered.now s.now }
{
    if !same_protocols(offered, s) {
        return Some(Difference::Protocols);
    }
    if !same_order(offered, s) {
        return Some(Difference::Order);
    }
    None
}

// What differs of a kind in the first proposals or, where nothing does, in the last.
fn of_each<F: Fn(&[u8], &[u8]) -> Option<Difference>>(
    difference: F,
    offered: &[u8],
    s: &[u8],
) -> Option<Difference>
    requires { F.IsAlwaysCallable difference }
    ensures { (told : _) → Tells told (F.post difference) → difference_told result ≡ of_each told offered.now s.now }
{
    let first = difference(proposal(0, offered), proposal(0, s));
    if first.is_some() {
        return first;
    }
    difference(last(offered), last(s))
}

fn transforms_differ(offered: &[u8], s: &[u8]) -> Option<Difference>
    ensures { difference_told result ≡ transforms_differ offered.now s.now }
{
    of_each(|_, q| several_transforms(q), offered, s)
        .or(of_each(transform_not_offered, offered, s))
        .or(of_each(other_id, offered, s))
        .or(of_each(other_attributes, offered, s))
}

fn replied_number(reply: &[u8]) -> ProposalNumber
    ensures { result ≡ replied_number reply.now }
{
    proposal_number(proposal(0, set(0, reply)))
}

// The offered set that has the number of the reply's.
fn offered_set<'a>(offer: &'a [u8], reply: &[u8]) -> &'a [u8]
    ensures { result.now ≡ offered_set offer.now reply.now }
{
    set_numbered(replied_number(reply), offer)
}

fn sets_differ(offer: &[u8], reply: &[u8]) -> Option<Difference>
    ensures { difference_told result ≡ sets_differ offer.now reply.now }
{
    let count = set_count(reply);
    if count != 1 {
        return Some(Difference::SeveralSets(count));
    }
    if offered_set(offer, reply).len() == 0 {
        return Some(Difference::SetNotOffered(replied_number(reply)));
    }
    None
}

// How the body of a reply's SA payload does not repeat the offer's.
fn bodies_differ(offer: &[u8], reply: &[u8]) -> Option<Difference>
    ensures { difference_told result ≡ bodies_differ offer.now reply.now }
{
    let offered = offered_set(offer, reply);
    let s = set(0, reply);
    sets_differ(offer, reply)
        .or_else(|| protocols_differ(offered, s))
        .or_else(|| transforms_differ(offered, s))
}

fn other_transform(chosen: TransformNumber, q: &[u8]) -> Option<Difference>
    ensures { difference_told result ≡ other_transform chosen q.now }
{
    let found = transform_number(transform(0, q));
    if found == chosen {
        return None;
    }
    let protocol = protocol(q);
    Some(Difference::OtherTransform {
        protocol,
        found,
        chosen,
    })
}

fn other_transforms(s: &[u8], chosen: Transforms) -> Option<Difference>
    ensures { difference_told result ≡ other_transforms s.now chosen }
{
    match chosen {
        Transforms::One(t) => other_transform(t, proposal(0, s)),
        Transforms::Two(t, u) => {
            other_transform(t, proposal(0, s)).or_else(|| other_transform(u, last(s)))
        }
    }
}

fn other_set(number: ProposalNumber, chosen: ProposalNumber) -> Option<Difference>
    ensures { difference_told result ≡ other_set number chosen }
{
    if number == chosen {
        return None;
    }
    Some(Difference::OtherSet {
        found: number,
        chosen,
    })
}

// What the choice takes instead of what the reply takes.
fn choice_differs(reply: &[u8], chosen: Result<Choice, Refusal>) -> Option<Difference>
    ensures { difference_told result ≡ choice_differs reply.now (choice_told chosen) }
{
    match chosen {
        Err(_) => Some(Difference::NothingChosen),
        Ok(choice) => {
            other_set(replied_number(reply), choice.set).or_else(|| other_transforms(
                set(0, reply),
                choice.transforms,
            ))
        }
    }
}

// Which of the three cannot be read first. All are read: what a closure that holds a book answers is known to no proof.
fn unread(book: Option<&[u8]>, offer: &[u8], reply: &[u8]) -> Option<Difference>
    ensures { difference_told result ≡ unread (is_some book.entry) (book_bytes book.entry) offer.now reply.now }
{
    offer_refused(offer)
        .or(book_refused(book))
        .or(reply_refused(reply))
}

// What a book, where there is one, chooses instead.
fn book_differs(book: Option<&[u8]>, exchange: u8, offer: &[u8], reply: &[u8]) -> Option<Difference>
    ensures { difference_told result ≡ (if is_some book.entry then choice_differs reply.now (choose_from exchange (book_bytes book.entry) offer.now) otherwise Nothing) }
{
    choice_differs(reply, choose_from(exchange, book?, offer))
}

// What differs between the bodies of two SA payloads, that of the offer being of this exchange.
fn compared(book: Option<&[u8]>, exchange: u8, offer: &[u8], reply: &[u8]) -> Option<Difference>
    ensures { difference_told result ≡ compared (is_some book.entry) exchange (book_bytes book.entry) offer.now reply.now }
{
    bodies_differ(offer, reply).or(book_differs(book, exchange, offer, reply))
}

// What differs first of a reply; a book is looked at only where there is one.
pub fn first_difference(book: Option<&[u8]>, offer: &[u8], reply: &[u8]) -> Option<Difference>
    ensures { difference_told result ≡ first_difference (is_some book.entry) (book_bytes book.entry) offer.now reply.now }
{
    let found = unread(book, offer, reply);
    if found.is_some() {
        return found;
    }
    compared(book, byte(offer, 18), sa_body(offer), sa_body(reply))
}

// Whether a reply is lawful: it repeats one offered set, with one offered transform in each proposal, and with a book takes what
// that chooses.
pub fn reply_lawful(book: Option<&[u8]>, offer: &[u8], reply: &[u8]) -> Result<(), Refusal>
    ensures { lawful_told result ≡ reply_lawful (is_some book.entry) (book_bytes book.entry) offer.now reply.now }
{
    match first_difference(book, offer, reply) {
        None => Ok(()),
        Some(difference) => Err(difference.refusal()),
    }
}
