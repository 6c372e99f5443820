// Message 2 against the message that was sent: whether it is taken, and what is agreed by it. Every function takes any bytes.
#![tactic(auto)]

ghost use Rattle.std.specs.Prelude.{◌≡◌};
ghost use Rattle.refusal.specs.Numbers.{coded};
ghost use Rattle.quick_taken.specs.Taken.{proposal_taken, set_taken, replied_set, offered_set, identities_same, taken_code, agreed_two};

use policy_choice::choose::body_at;
use quick_agreed::{spis_of, transforms_in};
use quick_end::Agreed;
use quick_shape::shape_of;
use refusal::Refusal;
use sa_fields::{proposal_number, protocol, transform_count};
use sa_items::{proposal, proposal_count, transform};
use sa_sets::{set, set_count, set_numbered};
use wire_read::equal;

fn proposal_taken(p: &[u8], offered: &[u8]) -> bool
    ensures { result ≡ proposal_taken p.now offered.now }
{
    (protocol(p) == protocol(offered))
        & (transform_count(p) == 1)
        & equal(transform(0, p), transform(0, offered))
}

fn set_taken(s: &[u8], offered: &[u8]) -> bool
    ensures { result ≡ set_taken s.now offered.now }
{
    let count = proposal_count(s);
    (count == proposal_count(offered))
        & proposal_taken(proposal(0, s), proposal(0, offered))
        & ((count == 1) | proposal_taken(proposal(1, s), proposal(1, offered)))
}

fn replied_set(m: &[u8]) -> &[u8]
    ensures { result.now ≡ replied_set m.now }
{
    set(0, body_at(1, m))
}

fn offered_set<'a>(sent: &'a [u8], m: &[u8]) -> &'a [u8]
    ensures { result.now ≡ offered_set sent.now m.now }
{
    set_numbered(
        proposal_number(proposal(0, replied_set(m))),
        body_at(1, sent),
    )
}

fn identities_same(found: u8, sent: &[u8], m: &[u8]) -> bool
    ensures { result ≡ identities_same found sent.now m.now }
{
    let first = equal(body_at(3, m), body_at(3, sent));
    let second = equal(body_at(4, m), body_at(4, sent));
    (found == shape_of(sent)) & ((found == 3) | first & second)
}

// Whether message 2, of the shape that was found, is taken from the offer that was sent.
pub fn taken_code(found: u8, sent: &[u8], m: &[u8]) -> Result<(), Refusal>
    ensures { coded result ≡ taken_code found sent.now m.now }
{
    let one = set_count(body_at(1, m)) == 1;
    if !(one & set_taken(replied_set(m), offered_set(sent, m))) {
        return Err(Refusal::BadProposalSyntax);
    }
    if !identities_same(found, sent, m) {
        return Err(Refusal::InvalidIdInformation);
    }
    Ok(())
}

// What message 2 agrees on with the message that was sent.
pub fn agreed_two(sent: &[u8], m: &[u8]) -> Agreed
    ensures { result ≡ agreed_two sent.now m.now }
{
    let s = replied_set(m);
    let set = proposal_number(proposal(0, s));
    let transforms = transforms_in(s);
    let initiator = spis_of(offered_set(sent, m));
    let responder = spis_of(s);
    Agreed {
        set,
        transforms,
        initiator,
        responder,
    }
}
