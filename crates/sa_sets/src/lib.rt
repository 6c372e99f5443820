// The sets of an SA payload's body that reads. Every function takes any bytes.
#![tactic(auto)]

ghost use Rattle.std.specs.Prelude.{◌≡◌};
ghost use Rattle.sa_sets.specs.Sets.{set_end, first_set, after_set, set, set_count, set_numbered};

use sa_fields::ProposalNumber;
use wire_read::parted::{Parted, numbered, parts, skip};
use wire_read::{after, be16, byte, front};

fn set_end(left: u8, number: u8, s: &[u8], at: usize) -> usize
    ensures { result ≡ set_end left number s.now at }
{
    if left == 0 {
        return at;
    }
    if s.len() <= at {
        return at;
    }
    if (s.len() < at + 8) | (byte(s, at + 4) != number) {
        return at;
    }
    set_end(left - 1, number, s, at + be16(s, at + 2) as usize)
}

// Sets are parts that end where a proposal has another number than their first.
struct Sets;

impl Parted for Sets {
    ghost first_part = { first_set };

    ghost after_part = { after_set };

    fn first_part(s: &[u8]) -> &[u8] {
        front(s, set_end(16, byte(s, 4), s, 0))
    }

    fn after_part(s: &[u8]) -> &[u8] {
        after(s, set_end(16, byte(s, 4), s, 0))
    }
}

// The proposals of set k, counted from 0, as bytes.
pub fn set(k: u8, body: &[u8]) -> &[u8]
    ensures { result.now ≡ set k body.now }
{
    Sets::first_part(skip::<Sets>(k, after(body, 8)))
}

// How many sets a body has.
pub fn set_count(body: &[u8]) -> u8
    ensures { result ≡ set_count body.now }
{
    parts::<Sets>(16, after(body, 8))
}

// The proposals of the set that has this number; none where no set has it.
pub fn set_numbered(number: ProposalNumber, body: &[u8]) -> &[u8]
    ensures { result.now ≡ set_numbered number body.now }
{
    numbered::<Sets>(16, number.0, after(body, 8))
}
