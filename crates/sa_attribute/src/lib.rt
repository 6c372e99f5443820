// The attributes of a transform: where they lie and what they say. A slice begins at an attribute.
#![tactic(auto)]

ghost use Rattle.std.specs.Prelude.{◌≡◌, take};
ghost use Rattle.sa_attribute.specs.Attributes.{sent_fixed, attribute_type, attribute_size, after_attribute, find, attribute, value, attribute_count};

use wire_read::parted::{Parted, parts};
use wire_read::{after, be16, be32, byte, front};

// Whether the attribute has its value in its own four bytes.
pub fn sent_fixed(s: &[u8]) -> bool
    ensures { result ≡ sent_fixed s.now }
{
    0x80 <= byte(s, 0)
}

pub fn attribute_type(s: &[u8]) -> u16
    ensures { result ≡ attribute_type s.now }
{
    be16(s, 0) % 0x8000
}

// How many bytes the attribute takes, by its own words.
pub fn attribute_size(s: &[u8]) -> usize
    ensures { result ≡ attribute_size s.now }
{
    if sent_fixed(s) {
        4
    } else {
        4 + be16(s, 2) as usize
    }
}

// Attributes are parts of the size that they say.
struct Attributes;

impl Parted for Attributes {
    ghost first_part = { λ s. take (attribute_size s) s };

    ghost after_part = { after_attribute };

    fn first_part(s: &[u8]) -> &[u8] {
        front(s, attribute_size(s))
    }

    fn after_part(s: &[u8]) -> &[u8] {
        after(s, attribute_size(s))
    }
}

fn find(most: u8, attributetype: u16, s: &[u8]) -> &[u8]
    ensures { result.now ≡ find most attributetype s.now }
{
    let mut rest = s;
    for _ in 0..most {
        if rest.len() < 4 {
            return &[];
        }
        if attribute_type(rest) == attributetype {
            return front(rest, attribute_size(rest));
        }
        rest = Attributes::after_part(rest);
    }
    &[]
}

// The attribute of a type in a transform's attributes; no bytes where there is none.
pub fn attribute(attributetype: u16, s: &[u8]) -> &[u8]
    ensures { result.now ≡ attribute attributetype s.now }
{
    find(16, attributetype, s)
}

// The number that an attribute's value spells, of 4 bytes at most.
pub fn value(a: &[u8]) -> u32
    ensures { result ≡ value a.now }
{
    if sent_fixed(a) {
        return be16(a, 2) as u32;
    }
    let n = be16(a, 2);
    match n {
        0 => 0,
        1 => byte(a, 4) as u32,
        2 => be16(a, 4) as u32,
        3 => be16(a, 4) as u32 * 256 + byte(a, 6) as u32,
        _ => be32(a, 4),
    }
}

// How many attributes a transform has.
pub fn attribute_count(s: &[u8]) -> u8
    ensures { result ≡ attribute_count s.now }
{
    parts::<Attributes>(16, s)
}
