// The body of an SA payload: proposals and their transforms, checked in reading order. A slice begins at a
// proposal, but for `offer_code`, which takes the body. Exchange and protocol are numbers, since every function answers for any.
#![tactic(auto)]

ghost use Rattle.std.specs.Prelude.{◌≡◌};
ghost use Rattle.refusal.specs.Numbers.{coded};
ghost use Rattle.sa_proposals.specs.Proposals.{proposal_wrong, has, with, set_before, order_wrong, protocol_wrong, spi_wrong, count_wrong, transform_bytes, inner_code, proposal_code, proposals_code, offer_code};

use refusal::Refusal;
use sa_transforms::transforms_code;
use wire_read::{after, be16, be32, byte, front};

// Which protocols a set has.
#[derive(Clone, Copy)]
struct Protocols {
    isakmp: bool,
    ah: bool,
    esp: bool,
}

fn proposal_wrong(s: &[u8]) -> bool
    ensures { result ≡ proposal_wrong s.now }
{
    let next = byte(s, 0);
    let n = be16(s, 2) as usize;
    (s.len() < 8)
        | !((next == 0) | (next == 2))
        | (byte(s, 1) != 0)
        | (n < 8 + byte(s, 6) as usize)
        | (s.len() < n)
}

// A set that has none yet.
const NONE: Protocols = Protocols {
    isakmp: false,
    ah: false,
    esp: false,
};

impl Protocols {
    fn has(self, protocol: u8) -> bool
        ensures { result ≡ has self protocol }
    {
        self.isakmp & (protocol == 1) | self.ah & (protocol == 2) | self.esp & (protocol == 3)
    }

    fn with(self, protocol: u8) -> Protocols
        ensures { result ≡ with self protocol }
    {
        Protocols {
            isakmp: self.isakmp | (protocol == 1),
            ah: self.ah | (protocol == 2),
            esp: self.esp | (protocol == 3),
        }
    }
}

// What the set of a proposal with this number has before it.
fn set_before(previous: u8, set: Protocols, number: u8) -> Protocols
    ensures { result ≡ set_before previous set number }
{
    if number == previous { set } else { NONE }
}

fn order_wrong(previous: u8, set: Protocols, s: &[u8]) -> bool
    ensures { result ≡ order_wrong previous set s.now }
{
    let number = byte(s, 4);
    (number < previous) | set_before(previous, set, number).has(byte(s, 5))
}

fn protocol_wrong(exchange: u8, protocol: u8) -> bool
    ensures { result ≡ protocol_wrong exchange protocol }
{
    !((exchange == 2) & (protocol == 1) | (exchange == 32) & ((protocol == 2) | (protocol == 3)))
}

fn spi_wrong(exchange: u8, s: &[u8]) -> bool
    ensures { result ≡ spi_wrong exchange s.now }
{
    let size = byte(s, 6);
    !((exchange == 2) & (size == 0) | (exchange == 32) & (size == 4) & (256 <= be32(s, 8)))
}

fn count_wrong(s: &[u8]) -> bool
    ensures { result ≡ count_wrong s.now }
{
    let count = byte(s, 7);
    !((1 <= count) & (count <= 8))
}

// The transforms of the proposal, as bytes.
pub fn transform_bytes(s: &[u8]) -> &[u8]
    ensures { result.now ≡ transform_bytes s.now }
{
    after(front(s, be16(s, 2) as usize), 8 + byte(s, 6) as usize)
}

fn inner_code(exchange: u8, s: &[u8]) -> Result<(), Refusal>
    ensures { coded result ≡ inner_code exchange s.now }
{
    transforms_code(byte(s, 7), exchange, 0, transform_bytes(s))?;
    if (exchange == 2) & (byte(s, 0) == 2) {
        Err(Refusal::BadProposalSyntax)
    } else {
        Ok(())
    }
}

fn proposal_code(exchange: u8, previous: u8, set: Protocols, s: &[u8]) -> Result<(), Refusal>
    ensures { coded result ≡ proposal_code exchange previous set s.now }
{
    if proposal_wrong(s) {
        return Err(Refusal::BadProposalSyntax);
    }
    if order_wrong(previous, set, s) {
        return Err(Refusal::BadProposalSyntax);
    }
    if protocol_wrong(exchange, byte(s, 5)) {
        return Err(Refusal::InvalidProtocolId);
    }
    if spi_wrong(exchange, s) {
        return Err(Refusal::InvalidSpi);
    }
    if count_wrong(s) {
        return Err(Refusal::BadProposalSyntax);
    }
    inner_code(exchange, s)
}

// The proposals from here on, of which so many may come; the one before has this number, and its set these protocols.
fn proposals_code(
    left: u8,
    exchange: u8,
    previous: u8,
    set: Protocols,
    s: &[u8],
) -> Result<(), Refusal>
    ensures { coded result ≡ proposals_code left exchange previous set s.now }
{
    if left == 0 {
        return Err(Refusal::BadProposalSyntax);
    }
    proposal_code(exchange, previous, set, s)?;
    let rest = after(s, be16(s, 2) as usize);
    if byte(s, 0) == 0 {
        return if rest.len() == 0 {
            Ok(())
        } else {
            Err(Refusal::BadProposalSyntax)
        };
    }
    let number = byte(s, 4);
    let set = set_before(previous, set, number).with(byte(s, 5));
    proposals_code(left - 1, exchange, number, set, rest)
}

// 0 where the body of an SA payload is lawful in the exchange, else the refusal.
pub fn offer_code(exchange: u8, s: &[u8]) -> Result<(), Refusal>
    ensures { coded result ≡ offer_code exchange s.now }
{
    if s.len() < 8 {
        return Err(Refusal::BadProposalSyntax);
    }
    if be32(s, 0) != 1 {
        return Err(Refusal::DoiNotSupported);
    }
    if be32(s, 4) != 1 {
        return Err(Refusal::SituationNotSupported);
    }
    proposals_code(16, exchange, 0, NONE, after(s, 8))
}
