// The reply: the chosen set with one transform in each proposal, as offered, and own SPIs.
#![tactic(auto)]

ghost use Rattle.std.specs.Prelude.{◌≡◌, ◌+◌, ◌≤◌, length};
ghost use Rattle.wire_write.specs.Put.{paste, put};
ghost use Rattle.policy_reply.specs.Reply.{spi_of, own_spi, fields, proposal_of, proposal_reply, set_reply, sa_of, spi_low, spis_low, outcome_told, replied};

use policy_choice::Transforms;
use policy_choice::choose::{choose, sa_body};
use refusal::Refusal;
use sa_fields::{ProposalNumber, TransformNumber, proposal_number, protocol};
use sa_items::{proposal, transform_numbered};
use sa_sets::set_numbered;
use wire_read::after;
use wire_write::{put_be32, put_bytes, put_head, put_headed};

// The own SPIs, of which a protocol has one.
#[derive(Clone, Copy, Debug, PartialEq, Eq)]
pub struct OwnSpis {
    pub ah: u32,
    pub esp: u32,
}

impl OwnSpis {
    fn of(self, protocol: u8) -> Option<u32>
        ensures { result ≡ spi_of self.ah self.esp protocol }
    {
        match protocol {
            2 => Some(self.ah),
            3 => Some(self.esp),
            _ => None,
        }
    }
}

// Writes the own SPI of a protocol; says how many bytes it has.
fn put_spi(buffer: &mut [u8], at: usize, own: OwnSpis, protocol: u8) -> u8
    ensures { put buffer.old at (own_spi own.ah own.esp protocol) ≡ (result, buffer.new) }
{
    let Some(spi) = own.of(protocol) else {
        return 0;
    };
    put_be32(buffer, at, spi);
    4
}

// Writes the eight bytes with which a proposal of one transform begins.
fn put_fields(
    buffer: &mut [u8],
    at: usize,
    next: u8,
    size: usize,
    number: ProposalNumber,
    protocol: u8,
    spi: u8,
)
    requires { at ≤ 9300000000000000000 }
    ensures { buffer.new ≡ paste buffer.old at (fields next size number.0 protocol spi) }
{
    put_head(buffer, at, next, size);
    put_bytes(buffer, at + 4, &[number.0, protocol, spi, 1]);
}

fn put_proposal_at(
    buffer: &mut [u8],
    at: usize,
    own: OwnSpis,
    next: u8,
    number: ProposalNumber,
    protocol: u8,
    t: &[u8],
) -> usize
    requires { at ≤ 9300000000000000000 }
    ensures { put buffer.old at (proposal_of next number.0 protocol (own_spi own.ah own.esp protocol) t.now) ≡ (result, buffer.new) }
{
    let rest = after(t, 4);
    let spi = put_spi(buffer, at + 8, own, protocol);
    put_headed(buffer, at + 8 + spi as usize, 0, rest);
    let size = 12 + spi as usize + rest.len();
    put_fields(buffer, at, next, size, number, protocol, spi);
    size
}

// Writes a proposal of one transform, with the own SPI of its protocol; says how many bytes it has. The transform's next and length are
// set anew.
pub fn put_proposal(
    buffer: &mut [u8],
    at: u32,
    own: OwnSpis,
    next: u8,
    number: ProposalNumber,
    protocol: u8,
    t: &[u8],
) -> usize
    ensures { put buffer.old at (proposal_of next number.0 protocol (own_spi own.ah own.esp protocol) t.now) ≡ (result, buffer.new) }
{
    put_proposal_at(buffer, at as usize, own, next, number, protocol, t)
}

// Writes the reply to a proposal of the offer: the same but for the SPI and all transforms but one.
fn put_offered(
    buffer: &mut [u8],
    at: usize,
    own: OwnSpis,
    next: u8,
    number: TransformNumber,
    p: &[u8],
) -> usize
    requires { at ≤ 9300000000000000000 }
    ensures { put buffer.old at (proposal_reply own.ah own.esp next number p.now) ≡ (result, buffer.new) }
{
    let t = transform_numbered(number, p);
    put_proposal_at(buffer, at, own, next, proposal_number(p), protocol(p), t)
}

fn put_set(buffer: &mut [u8], at: u32, own: OwnSpis, transforms: Transforms, s: &[u8]) -> usize
    ensures { put buffer.old at (set_reply own.ah own.esp transforms s.now) ≡ (result, buffer.new) }
{
    match transforms {
        Transforms::One(t) => put_offered(buffer, at as usize, own, 0, t, proposal(0, s)),
        Transforms::Two(t, u) => {
            let first = put_offered(buffer, at as usize, own, 2, t, proposal(0, s));
            let next = at as usize + first;
            first + put_offered(buffer, next, own, 0, u, proposal(1, s))
        }
    }
}

// Writes the SA payload of a reply to the set s, with these transforms; says how many bytes it has.
pub fn put_reply(
    buffer: &mut [u8],
    at: u16,
    next: u8,
    own: OwnSpis,
    transforms: Transforms,
    s: &[u8],
) -> usize
    ensures { put buffer.old at (sa_of next (set_reply own.ah own.esp transforms s.now)) ≡ (result, buffer.new) }
{
    let size = 12 + put_set(buffer, at as u32 + 12, own, transforms, s);
    put_bytes(buffer, at as usize + 4, &[0, 0, 0, 1, 0, 0, 0, 1]);
    put_head(buffer, at as usize, next, size);
    size
}

fn spi_low(own: OwnSpis, protocol: u8) -> bool
    ensures { result ≡ spi_low own.ah own.esp protocol }
{
    match own.of(protocol) {
        Some(spi) => spi < 256,
        None => false,
    }
}

// Whether an own SPI that the reply would use is below 256.
fn spis_low(own: OwnSpis, transforms: Transforms, s: &[u8]) -> bool
    ensures { result ≡ spis_low own.ah own.esp transforms s.now }
{
    let first = spi_low(own, protocol(proposal(0, s)));
    match transforms {
        Transforms::One(_) => first,
        Transforms::Two(_, _) => first | spi_low(own, protocol(proposal(1, s))),
    }
}

// Chooses, and writes the reply as an SA payload at the buffer's start; says how many bytes it has.
pub fn reply(book: &[u8], m: &[u8], own: OwnSpis, buffer: &mut [u8]) -> Result<usize, Refusal>
    ensures { replied book.now m.now own.ah own.esp buffer.old ≡ (outcome_told result, buffer.new) }
{
    if buffer.len() < 2048 {
        return Err(Refusal::BufferTooSmall);
    }
    let choice = choose(book, m)?;
    let s = set_numbered(choice.set, sa_body(m));
    if spis_low(own, choice.transforms, s) {
        return Err(Refusal::InvalidSpi);
    }
    Ok(put_reply(buffer, 0, 0, own, choice.transforms, s))
}
