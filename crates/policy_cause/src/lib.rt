// Why a transform does not suit a line of the book, and why a set does not: by the tests of policy_suits, one after the other.
#![tactic(auto)]

ghost use Rattle.std.specs.Prelude.{◌≡◌, ℕ, Option};
ghost use Rattle.policy_lines.specs.Lines.{place};
ghost use Rattle.policy_cause.specs.Causes.{wish_of, wanted, first_cause, Tells, id_cause, is_there, missing_one, missing_cause, value_one, value_cause, wanted_count, type_wanted, is_wanted, first_surplus, surplus_cause, seconds_cause, kilobytes_cause, attributes_cause, transform_cause, pair_cause};

use policy_lines::{LineNumber, main_seconds, quick_mode, quick_protocols, quick_seconds};
use policy_suits::{
    find_duration, kilobytes_some, nothing_surplus, protocols_suit, quick_id, seconds_within,
    set_suits, value_is,
};
use sa_attribute::{attribute, attribute_size, attribute_type, value};
use sa_fields::{attributes_of, transform_id};
use wire_read::{after, front};

// The first condition that a transform fails, with what was found and what the line wants.
#[derive(Clone, Copy, Debug, PartialEq, Eq)]
pub enum Cause {
    Id {
        found: u8,
        wanted: u8,
    },
    Missing(u16),
    Value {
        attributetype: u16,
        found: u32,
        wanted: u32,
    },
    Surplus {
        attributetype: u16,
        found: u32,
    },
    Seconds {
        found: u32,
        longest: u32,
    },
    Kilobytes,
}

// The first condition that a set fails. Where its protocols are the line's, each transform has its own cause.
#[derive(Clone, Copy, Debug, PartialEq, Eq)]
pub enum PairCause {
    Protocols,
    Transforms,
}

// What a line wants of a transform. A main line's life types are of type 11, and it has no mode and no attribute 5.
#[derive(Clone, Copy)]
pub struct Wish {
    pub id: u8,
    pub lifetype: u16,
    pub mode: u8,
    pub five: bool,
    pub longest: u32,
}

impl Wish {
    fn of(exchange: u8, line: LineNumber, book: &[u8], protocol: u8) -> Wish
        ensures { result ≡ wish_of exchange (place line) book.now protocol }
    {
        let i = line.place();
        if exchange == 2 {
            let longest = main_seconds(i, book);
            return Wish {
                id: 1,
                lifetype: 11,
                mode: 0,
                five: false,
                longest,
            };
        }
        let five = !((quick_protocols(i, book) == 2) & (protocol == 3));
        let id = quick_id(protocol);
        let mode = quick_mode(i, book);
        let longest = quick_seconds(i, book);
        Wish {
            id,
            lifetype: 1,
            mode,
            five,
            longest,
        }
    }

    // The first cause among the attributes that the line wants, in document 01's order.
    fn first_wanted<F: Fn(u16, u32) -> Option<Cause>>(self, cause: F) -> Option<Cause>
        requires { F.IsAlwaysCallable cause }
        ensures { (told : ℕ × ℕ → Option Cause) → Tells told (F.post cause) → result ≡ first_cause told (wanted self) }
    {
        if self.lifetype == 11 {
            return first_of(&[(1, 129), (2, 20), (3, 10), (20, 2), (11, 1)], cause);
        }
        let mode = self.mode as u32;
        if self.five {
            first_of(&[(4, mode), (1, 1), (5, 20)], cause)
        } else {
            first_of(&[(4, mode), (1, 1)], cause)
        }
    }

    fn id_cause(self, t: &[u8]) -> Option<Cause>
        ensures { result ≡ id_cause self t.now }
    {
        let found = transform_id(t);
        if found == self.id {
            None
        } else {
            Some(Cause::Id {
                found,
                wanted: self.id,
            })
        }
    }

    fn missing_cause(self, attributes: &[u8]) -> Option<Cause>
        ensures { result ≡ missing_cause self.lifetype (wanted self) attributes.now }
    {
        let lifetype = self.lifetype;
        self.first_wanted(|attributetype, _| missing_one(lifetype, attributetype, attributes))
    }

    fn value_cause(self, attributes: &[u8]) -> Option<Cause>
        ensures { result ≡ value_cause self.lifetype (wanted self) attributes.now }
    {
        let lifetype = self.lifetype;
        self.first_wanted(|attributetype, wanted| value_one(
            lifetype,
            attributetype,
            wanted,
            attributes,
        ))
    }

    fn type_wanted(self, attributetype: u16) -> bool
        ensures { result ≡ type_wanted attributetype (wanted self) }
    {
        let t = attributetype;
        if self.lifetype == 11 {
            (t == 1) | (t == 2) | (t == 3) | (t == 20) | (t == 11)
        } else {
            (t == 4) | (t == 1) | (self.five & (t == 5))
        }
    }

    // Whether the attribute at the front of s is wanted.
    fn is_wanted(self, s: &[u8]) -> bool
        ensures { result ≡ is_wanted self s.now }
    {
        let t = attribute_type(s);
        if t == self.lifetype {
            let unit = value(s);
            return (unit == 1) | (unit == 2);
        }
        (t as u32 == self.lifetype as u32 + 1) | self.type_wanted(t)
    }

    // The first attribute that is not wanted, of the at most 16 that a transform has; no bytes where there is none.
    fn first_surplus(self, attributes: &[u8]) -> &[u8]
        ensures { result.now ≡ first_surplus 16 self attributes.now }
    {
        let mut s = attributes;
        for _passed in 0u8..16 {
            if s.len() < 4 {
                return front(s, 0);
            }
            let size = attribute_size(s);
            if !self.is_wanted(s) {
                return front(s, size);
            }
            s = after(s, size);
        }
        front(s, 0)
    }

    // How many attributes are wanted, with the duration behind the life type.
    fn wanted_count(self) -> u8
        ensures { result ≡ wanted_count self }
    {
        if self.lifetype == 11 {
            6
        } else if self.five {
            4
        } else {
            3
        }
    }

    fn surplus_cause(self, attributes: &[u8]) -> Option<Cause>
        ensures { result ≡ surplus_cause self attributes.now }
    {
        if nothing_surplus(self.wanted_count(), self.lifetype, attributes) {
            return None;
        }
        let first = self.first_surplus(attributes);
        let attributetype = attribute_type(first);
        let found = value(first);
        Some(Cause::Surplus {
            attributetype,
            found,
        })
    }

    fn seconds_cause(self, attributes: &[u8]) -> Option<Cause>
        ensures { result ≡ seconds_cause self attributes.now }
    {
        if seconds_within(self.lifetype, self.longest, attributes) {
            return None;
        }
        let found = value(find_duration(16, self.lifetype, 1, attributes));
        Some(Cause::Seconds {
            found,
            longest: self.longest,
        })
    }

    fn kilobytes_cause(self, attributes: &[u8]) -> Option<Cause>
        ensures { result ≡ kilobytes_cause self attributes.now }
    {
        if kilobytes_some(self.lifetype, attributes) {
            None
        } else {
            Some(Cause::Kilobytes)
        }
    }

    fn attributes_cause(self, attributes: &[u8]) -> Option<Cause>
        ensures { result ≡ attributes_cause self attributes.now }
    {
        self.missing_cause(attributes)
            .or_else(|| self.value_cause(attributes))
            .or_else(|| self.surplus_cause(attributes))
            .or_else(|| self.seconds_cause(attributes))
            .or_else(|| self.kilobytes_cause(attributes))
    }
}

// The first cause of a list of types and values.
fn first_of<F: Fn(u16, u32) -> Option<Cause>>(wanted: &[(u16, u32)], cause: F) -> Option<Cause>
    requires { F.IsAlwaysCallable cause }
    ensures { (told : ℕ × ℕ → Option Cause) → Tells told (F.post cause) → result ≡ first_cause told wanted.now }
{
    for (attributetype, value) in wanted {
        let found = cause(*attributetype, *value);
        if found.is_some() {
            return found;
        }
    }
    None
}

fn is_there(lifetype: u16, attributetype: u16, attributes: &[u8]) -> bool
    ensures { result ≡ is_there lifetype attributetype attributes.now }
{
    if attributetype == lifetype {
        4 <= find_duration(16, lifetype, 1, attributes).len()
    } else {
        4 <= attribute(attributetype, attributes).len()
    }
}

fn missing_one(lifetype: u16, attributetype: u16, attributes: &[u8]) -> Option<Cause>
    ensures { result ≡ missing_one lifetype attributetype attributes.now }
{
    if is_there(lifetype, attributetype, attributes) {
        None
    } else {
        Some(Cause::Missing(attributetype))
    }
}

fn value_one(lifetype: u16, attributetype: u16, wanted: u32, attributes: &[u8]) -> Option<Cause>
    ensures { result ≡ value_one lifetype attributetype wanted attributes.now }
{
    if (attributetype == lifetype) | value_is(attributetype, wanted, attributes) {
        None
    } else {
        let found = value(attribute(attributetype, attributes));
        Some(Cause::Value {
            attributetype,
            found,
            wanted,
        })
    }
}

// Why a transform of a proposal of this protocol does not suit a line of the exchange; none where it does.
pub fn transform_cause(
    exchange: u8,
    line: LineNumber,
    book: &[u8],
    protocol: u8,
    t: &[u8],
) -> Option<Cause>
    ensures { result ≡ transform_cause exchange (place line) book.now protocol t.now }
{
    let wish = Wish::of(exchange, line, book, protocol);
    wish.id_cause(t)
        .or_else(|| wish.attributes_cause(attributes_of(t)))
}

// Why a set does not suit a line of the exchange; none where it does.
pub fn pair_cause(exchange: u8, line: LineNumber, book: &[u8], set: &[u8]) -> Option<PairCause>
    ensures { result ≡ pair_cause exchange (place line) book.now set.now }
{
    if set_suits(exchange, line, book, set) {
        return None;
    }
    if protocols_suit(exchange, line, book, set) {
        Some(PairCause::Transforms)
    } else {
        Some(PairCause::Protocols)
    }
}
