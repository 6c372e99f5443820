// The proposals of a set and the transforms of a proposal, which lie one behind the other. Every function takes any bytes.
#![tactic(auto)]

ghost use Rattle.std.specs.Prelude.{◌≡◌};
ghost use Rattle.sa_items.specs.Items.{first_item, after_item, proposal, proposal_count, transform, transform_numbered};

use sa_fields::TransformNumber;
use sa_proposals::transform_bytes;
use wire_read::parted::{Parted, numbered, parts, skip};
use wire_read::{after, be16, front};

// Proposals, and transforms, are parts that have their length in their bytes 2 and 3.
struct Items;

impl Parted for Items {
    ghost first_part = { first_item };

    ghost after_part = { after_item };

    fn first_part(s: &[u8]) -> &[u8] {
        front(s, be16(s, 2) as usize)
    }

    fn after_part(s: &[u8]) -> &[u8] {
        after(s, be16(s, 2) as usize)
    }
}

// Proposal k of a set, counted from 0.
pub fn proposal(k: u8, set: &[u8]) -> &[u8]
    ensures { result.now ≡ proposal k set.now }
{
    Items::first_part(skip::<Items>(k, set))
}

// How many proposals a set has.
pub fn proposal_count(set: &[u8]) -> u8
    ensures { result ≡ proposal_count set.now }
{
    parts::<Items>(16, set)
}

// Transform k of a proposal, counted from 0.
pub fn transform(k: u8, p: &[u8]) -> &[u8]
    ensures { result.now ≡ transform k p.now }
{
    Items::first_part(skip::<Items>(k, transform_bytes(p)))
}

// The transform that has this number; no bytes where none has it.
pub fn transform_numbered(number: TransformNumber, p: &[u8]) -> &[u8]
    ensures { result.now ≡ transform_numbered number p.now }
{
    numbered::<Items>(8, number.0, transform_bytes(p))
}
