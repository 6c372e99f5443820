// What other languages call to ask whether a gateway's reply is lawful, and what differs first.
#![tactic(auto)]

ghost use Rattle.std.specs.Prelude.{◌≡◌};
ghost use Rattle.exports_words.specs.Given.{words, given};
ghost use Rattle.policy_lawful.specs.Difference.{difference_told};
ghost use Rattle.policy_lawful.specs.Lawful.{reply_lawful, lawful_answer, first_difference, difference_values, difference_answer};

use policy_lawful::{Difference, first_difference, reply_lawful};

// Whether a reply is lawful beside the offer that it answers and, where there is one, a book: 0, or the refusal.
pub fn tallowbrim_lawful(offer: &[u8], reply: &[u8], booked: bool, book: &[u8]) -> u32
    ensures { result ≡ (lawful_answer (reply_lawful booked book.now offer.now reply.now)).number }
{
    match reply_lawful(booked.then_some(book), offer, reply) {
        Err(refusal) => u32::from(refusal),
        Ok(()) => 0,
    }
}

fn difference_words(difference: Option<Difference>) -> [u64; 5]
    ensures { result ≡ words 5 (difference_values (difference_told difference)) }
{
    let Some(difference) = difference else {
        return [1, 0, 0, 0, 0];
    };
    match difference {
        Difference::OfferRefused(refusal) => [2, refusal.number() as u64, 0, 0, 0],
        Difference::BookRefused(refusal) => [3, refusal.number() as u64, 0, 0, 0],
        Difference::ReplyRefused(refusal) => [4, refusal.number() as u64, 0, 0, 0],
        Difference::SeveralSets(count) => [5, count as u64, 0, 0, 0],
        Difference::SetNotOffered(number) => [6, number.0 as u64, 0, 0, 0],
        Difference::Protocols => [7, 0, 0, 0, 0],
        Difference::Order => [8, 0, 0, 0, 0],
        Difference::SeveralTransforms { protocol, count } => [
            9,
            protocol as u64,
            count as u64,
            0,
            0,
        ],
        Difference::TransformNotOffered { protocol, number } => [
            10,
            protocol as u64,
            number.0 as u64,
            0,
            0,
        ],
        Difference::Id {
            protocol,
            number,
            found,
            offered,
        } => [
            11,
            protocol as u64,
            number.0 as u64,
            found as u64,
            offered as u64,
        ],
        Difference::Attributes { protocol, number } => [12, protocol as u64, number.0 as u64, 0, 0],
        Difference::OtherSet { found, chosen } => [13, found.0 as u64, chosen.0 as u64, 0, 0],
        Difference::OtherTransform {
            protocol,
            found,
            chosen,
        } => [14, protocol as u64, found.0 as u64, chosen.0 as u64, 0],
        Difference::NothingChosen => [15, 0, 0, 0, 0],
    }
}

// What differs first of a reply, by the same offer and book.
pub fn tallowbrim_difference(
    offer: &[u8],
    reply: &[u8],
    booked: bool,
    book: &[u8],
    out: &mut [u64; 5],
) -> u32
    ensures { given 5 (difference_answer (first_difference booked book.now offer.now reply.now)) out.old ≡ (result, out.new) }
{
    *out = difference_words(first_difference(booked.then_some(book), offer, reply));
    0
}
