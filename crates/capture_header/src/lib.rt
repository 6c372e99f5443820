// The headers of a classic capture file and of its records, in either byte order.
//   file    magic (4), major (2), minor (2), time zone (4), accuracy (4), snap length (4), link type (4)
//   record  seconds (4), microseconds (4), captured length (4), original length (4)
#![tactic(auto)]

ghost use Rattle.std.specs.Prelude.{◌≡◌};
ghost use Rattle.capture_header.specs.Headers.{number_in, in_order, file_header, file_header_told, record_header, record_header_told, order_cause, header_cause};

use refusal::Refusal;
use wire_read::{be16, be32};

// The order of the bytes in a file's numbers: the highest first, or the lowest.
#[derive(Clone, Copy, Debug, PartialEq, Eq)]
pub enum Order {
    Big,
    Little,
}

#[derive(Clone, Copy, Debug, PartialEq, Eq)]
pub struct RecordHeader {
    pub seconds: u32,
    pub microseconds: u32,
    pub captured: u16,
    pub original: u32,
}

// What a file is by its header, for a person whose file is refused.
#[derive(Clone, Copy, Debug, PartialEq, Eq)]
pub enum HeaderCause {
    Short,
    Pcapng,
    Nanoseconds,
    Version { major: u16, minor: u16 },
    // Ethernet, with bits that say that check sequences stand behind the frames.
    CheckSequences,
    LinkType(u16),
    NoCapture,
}

const MAGIC: u32 = 0xa1b2c3d4;

const NANOSECONDS: u32 = 0xa1b23c4d;

const PCAPNG: u32 = 0x0a0d0d0a;

// Two sizes with two lines each: one generic over a trait of both would be longer than they are.
impl Order {
    // The 16-bit number at a place.
    fn number16(self, s: &[u8], at: usize) -> u16
        ensures { result ≡ number_in self 2 s.now at }
    {
        match self {
            Order::Big => be16(s, at),
            Order::Little => be16(s, at).swap_bytes(),
        }
    }

    // The 32-bit number at a place.
    fn number32(self, s: &[u8], at: usize) -> u32
        ensures { result ≡ number_in self 4 s.now at }
    {
        match self {
            Order::Big => be32(s, at),
            Order::Little => be32(s, at).swap_bytes(),
        }
    }
}

fn in_order(order: Order, s: &[u8]) -> Result<Order, Refusal>
    ensures { file_header_told result ≡ in_order order s.now }
{
    if (order.number16(s, 4) == 2) & (order.number16(s, 6) == 4) & (order.number32(s, 20) == 1) {
        return Ok(order);
    }
    Err(Refusal::NoCapture)
}

// The header that a file begins with: the order of its numbers.
pub fn file_header(s: &[u8]) -> Result<Order, Refusal>
    ensures { file_header_told result ≡ file_header s.now }
{
    if s.len() < 24 {
        return Err(Refusal::NoCapture);
    }
    if Order::Big.number32(s, 0) == MAGIC {
        return in_order(Order::Big, s);
    }
    if Order::Little.number32(s, 0) == MAGIC {
        return in_order(Order::Little, s);
    }
    Err(Refusal::NoCapture)
}

// The header that a record begins with, in the file's order; none where the file ends inside it.
pub fn record_header(order: Order, s: &[u8]) -> Result<Option<RecordHeader>, Refusal>
    ensures { record_header_told result ≡ record_header order s.now }
{
    if s.len() < 16 {
        return Ok(None);
    }
    let captured = order.number32(s, 8);
    if 65535 < captured {
        return Err(Refusal::NoCapture);
    }
    Ok(Some(RecordHeader {
        seconds: order.number32(s, 0),
        microseconds: order.number32(s, 4),
        captured: captured as u16,
        original: order.number32(s, 12),
    }))
}

fn order_cause(order: Order, s: &[u8]) -> Option<HeaderCause>
    ensures { result ≡ order_cause order s.now }
{
    let major = order.number16(s, 4);
    let minor = order.number16(s, 6);
    let link = order.number32(s, 20);
    if !((major == 2) & (minor == 4)) {
        return Some(HeaderCause::Version { major, minor });
    }
    if link == 1 {
        return None;
    }
    if link % 65536 == 1 {
        return Some(HeaderCause::CheckSequences);
    }
    Some(HeaderCause::LinkType((link % 65536) as u16))
}

// What keeps a file from being read, by what it begins with; none where nothing does.
pub fn header_cause(s: &[u8]) -> Option<HeaderCause>
    ensures { result ≡ header_cause s.now }
{
    if s.len() < 24 {
        return Some(HeaderCause::Short);
    }
    let big = Order::Big.number32(s, 0);
    let little = Order::Little.number32(s, 0);
    if big == PCAPNG {
        return Some(HeaderCause::Pcapng);
    }
    if (big == NANOSECONDS) | (little == NANOSECONDS) {
        return Some(HeaderCause::Nanoseconds);
    }
    if big == MAGIC {
        return order_cause(Order::Big, s);
    }
    if little == MAGIC {
        return order_cause(Order::Little, s);
    }
    Some(HeaderCause::NoCapture)
}
