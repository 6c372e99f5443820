// Which transform, and which set, suits which line of the book.
// Exchange, line and book stay three parameters: as one struct each caller would build it for one call, and each clause name it thrice.
#![tactic(auto)]

ghost use Rattle.std.specs.Prelude.{◌≡◌};
ghost use Rattle.policy_lines.specs.Lines.{place};
ghost use Rattle.policy_suits.specs.Suits.{value_is, is_unit, find_duration, seconds_within, has_kilobytes, kilobytes_some, nothing_surplus, main_values, main_suits, quick_id, quick_authentication, suits_quick_line, suits_line, lowest_transform, has_transform, protocols_alone, protocols_both, protocols_suit, set_suits};

use policy_lines::{LineNumber, main_seconds, quick_mode, quick_protocols, quick_seconds};
use sa_attribute::{attribute, attribute_count, attribute_size, attribute_type, value};
use sa_fields::{
    TransformNumber, attributes_of, protocol, transform_count, transform_id, transform_number,
};
use sa_items::{proposal, proposal_count};
use sa_proposals::transform_bytes;
use wire_read::{after, be16, front};

pub fn value_is(attributetype: u16, wanted: u32, attributes: &[u8]) -> bool
    ensures { result ≡ value_is attributetype wanted attributes.now }
{
    let found = attribute(attributetype, attributes);
    (4 <= found.len()) & (value(found) == wanted)
}

// Whether an attribute is the life type of this value. Most are no life type, and their value is not asked.
fn is_unit(lifetype: u16, unit: u32, s: &[u8]) -> bool
    ensures { result ≡ is_unit lifetype unit s.now }
{
    if attribute_type(s) != lifetype {
        return false;
    }
    value(s) == unit
}

// The duration behind the life type of this value among the first `most` attributes; no bytes where there is none.
pub fn find_duration(most: u8, lifetype: u16, unit: u32, s: &[u8]) -> &[u8]
    ensures { result.now ≡ find_duration most lifetype unit s.now }
{
    let mut rest = s;
    for _passed in 0..most {
        if rest.len() < 4 {
            return &[];
        }
        let behind = after(rest, attribute_size(rest));
        if is_unit(lifetype, unit, rest) {
            return front(behind, attribute_size(behind));
        }
        rest = behind;
    }
    &[]
}

pub fn seconds_within(lifetype: u16, longest: u32, attributes: &[u8]) -> bool
    ensures { result ≡ seconds_within lifetype longest attributes.now }
{
    let found = find_duration(16, lifetype, 1, attributes);
    let life = value(found);
    (4 <= found.len()) & (1 <= life) & (life <= longest)
}

fn has_kilobytes(lifetype: u16, attributes: &[u8]) -> bool
    ensures { result ≡ has_kilobytes lifetype attributes.now }
{
    4 <= find_duration(16, lifetype, 2, attributes).len()
}

pub fn kilobytes_some(lifetype: u16, attributes: &[u8]) -> bool
    ensures { result ≡ kilobytes_some lifetype attributes.now }
{
    let found = find_duration(16, lifetype, 2, attributes);
    !(4 <= found.len()) | (1 <= value(found))
}

pub fn nothing_surplus(wanted: u8, lifetype: u16, attributes: &[u8]) -> bool
    ensures { result ≡ nothing_surplus wanted lifetype attributes.now }
{
    let count = attribute_count(attributes) as u16;
    if has_kilobytes(lifetype, attributes) {
        count == wanted as u16 + 2
    } else {
        count == wanted as u16
    }
}

fn main_values(attributes: &[u8]) -> bool
    ensures { result ≡ main_values attributes.now }
{
    value_is(1, 129, attributes)
        & value_is(2, 20, attributes)
        & value_is(3, 10, attributes)
        & value_is(20, 2, attributes)
}

fn main_suits(seconds: u32, t: &[u8]) -> bool
    ensures { result ≡ main_suits seconds t.now }
{
    let attributes = attributes_of(t);
    (transform_id(t) == 1)
        & main_values(attributes)
        & seconds_within(11, seconds, attributes)
        & kilobytes_some(11, attributes)
        & nothing_surplus(6, 11, attributes)
}

pub fn quick_id(protocol: u8) -> u8
    ensures { result ≡ quick_id protocol }
{
    if protocol == 2 { 20 } else { 129 }
}

fn quick_authentication(protocols: u8, protocol: u8, attributes: &[u8]) -> bool
    ensures { result ≡ quick_authentication protocols protocol attributes.now }
{
    if (protocols == 2) & (protocol == 3) {
        nothing_surplus(3, 1, attributes)
    } else {
        value_is(5, 20, attributes) & nothing_surplus(4, 1, attributes)
    }
}

// Whether a transform of a proposal of this protocol suits a quick line.
fn quick_suits(line: LineNumber, book: &[u8], protocol: u8, t: &[u8]) -> bool
    ensures { result ≡ suits_quick_line (place line) book.now protocol t.now }
{
    let attributes = attributes_of(t);
    if transform_id(t) != quick_id(protocol) {
        return false;
    }
    let i = line.place();
    // Lines differ most in their seconds, so the life is asked first, and the rest of the line read only where it suits.
    if !seconds_within(1, quick_seconds(i, book), attributes) {
        return false;
    }
    if !value_is(4, quick_mode(i, book) as u32, attributes) {
        return false;
    }
    if !kilobytes_some(1, attributes) {
        return false;
    }
    quick_authentication(quick_protocols(i, book), protocol, attributes)
}

// Whether a transform of this protocol suits a line of the exchange.
fn suits_line(exchange: u8, line: LineNumber, book: &[u8], protocol: u8, t: &[u8]) -> bool
    ensures { result ≡ suits_line exchange (place line) book.now protocol t.now }
{
    if exchange == 2 {
        return main_suits(main_seconds(line.place(), book), t);
    }
    quick_suits(line, book, protocol, t)
}

// The lowest transform of proposal p that suits a line of the exchange: numbers rise, so it is the first.
pub fn lowest(exchange: u8, line: LineNumber, book: &[u8], p: &[u8]) -> Option<TransformNumber>
    ensures { result ≡ lowest_transform exchange (place line) book.now p.now }
{
    let count = transform_count(p);
    let protocol = protocol(p);
    let mut rest = transform_bytes(p);
    for _passed in 0..count {
        let size = be16(rest, 2) as usize;
        let t = front(rest, size);
        if suits_line(exchange, line, book, protocol, t) {
            return Some(transform_number(t));
        }
        rest = after(rest, size);
    }
    None
}

fn has_transform(exchange: u8, line: LineNumber, book: &[u8], p: &[u8]) -> bool
    ensures { result ≡ has_transform exchange (place line) book.now p.now }
{
    lowest(exchange, line, book, p).is_some()
}

fn protocols_alone(wanted: u8, set: &[u8]) -> bool
    ensures { result ≡ protocols_alone wanted set.now }
{
    (proposal_count(set) == 1) & (protocol(proposal(0, set)) == wanted)
}

fn protocols_both(set: &[u8]) -> bool
    ensures { result ≡ protocols_both set.now }
{
    let first = protocol(proposal(0, set));
    let second = protocol(proposal(1, set));
    (proposal_count(set) == 2) & ((first == 2) & (second == 3) | (first == 3) & (second == 2))
}

pub fn protocols_suit(exchange: u8, line: LineNumber, book: &[u8], set: &[u8]) -> bool
    ensures { result ≡ protocols_suit exchange (place line) book.now set.now }
{
    if exchange == 2 {
        return protocols_alone(1, set);
    }
    if quick_protocols(line.place(), book) == 1 {
        protocols_alone(3, set)
    } else {
        protocols_both(set)
    }
}

// Whether a set suits a line of the exchange.
pub fn set_suits(exchange: u8, line: LineNumber, book: &[u8], set: &[u8]) -> bool
    ensures { result ≡ set_suits exchange (place line) book.now set.now }
{
    // Lines differ most in their seconds, so the first proposal's transforms are asked first.
    if !has_transform(exchange, line, book, proposal(0, set)) {
        return false;
    }
    if !protocols_suit(exchange, line, book, set) {
        return false;
    }
    (proposal_count(set) == 1) | has_transform(exchange, line, book, proposal(1, set))
}
