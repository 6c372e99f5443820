// What other languages call to say why nothing was chosen: the cause at places, and what stands there.
#![tactic(auto)]

ghost use Rattle.std.specs.Prelude.{◌∷◌, ◌≡◌, Ok};
ghost use Rattle.exports_words.specs.Given.{words, given};
ghost use Rattle.policy_cause.specs.Causes.{cause_values};
ghost use Rattle.policy_why.specs.Why.{why, why_told, why_answer};
ghost use Rattle.exports_why.specs.Places.{found_values, place_values, place_answer};

use policy_cause::Cause;
use policy_choice::choose::sa_of;
use policy_why::{Places, Why, cause_at, is_place, message_offer};
use sa_fields::{proposal_number, protocol, transform_number};
use sa_items::{proposal, transform};
use sa_sets::set;

// A transform's cause, behind the 3 that says that there is one.
fn cause_words(cause: Option<Cause>) -> [u64; 5]
    ensures { result ≡ words 5 (3 ∷ cause_values cause) }
{
    let Some(cause) = cause else {
        return [3, 1, 0, 0, 0];
    };
    match cause {
        Cause::Id { found, wanted } => [3, 2, found as u64, wanted as u64, 0],
        Cause::Missing(attributetype) => [3, 3, attributetype as u64, 0, 0],
        Cause::Value {
            attributetype,
            found,
            wanted,
        } => [3, 4, attributetype as u64, found as u64, wanted as u64],
        Cause::Surplus {
            attributetype,
            found,
        } => [3, 5, attributetype as u64, found as u64, 0],
        Cause::Seconds { found, longest } => [3, 6, found as u64, longest as u64, 0],
        Cause::Kilobytes => [3, 7, 0, 0, 0],
    }
}

fn why_words(said: Why) -> [u64; 5]
    ensures { result ≡ words 5 (why_answer (why_told (Ok said))).values }
{
    match said {
        Why::NoSuchPlace => [1, 0, 0, 0, 0],
        Why::Protocols => [2, 0, 0, 0, 0],
        Why::Transform(cause) => cause_words(cause),
    }
}

// Why a transform does not suit a line, by places counted from 0.
pub fn tallowbrim_cause(
    book: &[u8],
    m: &[u8],
    set: u8,
    line: u8,
    proposal: u8,
    transform: u8,
    out: &mut [u64; 5],
) -> u32
    ensures { given 5 (why_answer (why book.now m.now (record { set = set; line = line; proposal = proposal; transform = transform }))) out.old ≡ (result, out.new) }
{
    let at = Places {
        set,
        line,
        proposal,
        transform,
    };
    match cause_at(book, m, at) {
        Err(refusal) => u32::from(refusal),
        Ok(said) => {
            *out = why_words(said);
            0
        }
    }
}

// The number of the set s, the protocol of its proposal p and the number of p's transform t, behind the 2 that says that they are there.
fn found_words(s: &[u8], p: &[u8], t: &[u8]) -> [u64; 4]
    ensures { result ≡ found_values s.now p.now t.now }
{
    let set = proposal_number(proposal(0, s));
    let transform = transform_number(t);
    [2, set.0 as u64, protocol(p) as u64, transform.0 as u64]
}

// What stands at places of an SA payload's body.
fn place_words(body: &[u8], at: Places) -> [u64; 4]
    ensures { result ≡ words 4 (place_values body.now at) }
{
    if !is_place(body, at) {
        return [1, 0, 0, 0];
    }
    let s = set(at.set, body);
    let p = proposal(at.proposal, s);
    found_words(s, p, transform(at.transform, p))
}

// What stands at places of a message's offer: the set's number, the proposal's protocol, the transform's number.
pub fn tallowbrim_place(m: &[u8], set: u8, proposal: u8, transform: u8, out: &mut [u64; 4]) -> u32
    ensures { given 4 (place_answer m.now (record { set = set; line = 0; proposal = proposal; transform = transform })) out.old ≡ (result, out.new) }
{
    match message_offer(m) {
        Err(refusal) => u32::from(refusal),
        Ok(offer) => {
            let at = Places {
                set,
                line: 0,
                proposal,
                transform,
            };
            *out = place_words(sa_of(offer.count, m), at);
            0
        }
    }
}
