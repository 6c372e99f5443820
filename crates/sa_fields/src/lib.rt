// What a proposal and a transform say of themselves. Every function takes any bytes.
#![tactic(auto)]

ghost use Rattle.std.specs.Prelude.{◌≡◌};
ghost use Rattle.sa_fields.specs.Fields.{proposal_number, protocol, spi, transform_count, transform_number, transform_id, attributes_of};

use wire_read::{after, byte, front};

// Proposal numbers and transform numbers are separate countings.
#[derive(Clone, Copy, Debug, PartialEq, Eq)]
pub struct ProposalNumber(pub u8);

#[derive(Clone, Copy, Debug, PartialEq, Eq)]
pub struct TransformNumber(pub u8);

pub fn proposal_number(p: &[u8]) -> ProposalNumber
    ensures { result ≡ proposal_number p.now }
{
    ProposalNumber(byte(p, 4))
}

pub fn protocol(p: &[u8]) -> u8
    ensures { result ≡ protocol p.now }
{
    byte(p, 5)
}

pub fn spi(p: &[u8]) -> &[u8]
    ensures { result.now ≡ spi p.now }
{
    front(after(p, 8), byte(p, 6) as usize)
}

pub fn transform_count(p: &[u8]) -> u8
    ensures { result ≡ transform_count p.now }
{
    byte(p, 7)
}

pub fn transform_number(t: &[u8]) -> TransformNumber
    ensures { result ≡ transform_number t.now }
{
    TransformNumber(byte(t, 4))
}

pub fn transform_id(t: &[u8]) -> u8
    ensures { result ≡ transform_id t.now }
{
    byte(t, 5)
}

pub fn attributes_of(t: &[u8]) -> &[u8]
    ensures { result.now ≡ attributes_of t.now }
{
    after(t, 8)
}
