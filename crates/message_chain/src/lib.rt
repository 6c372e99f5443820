// Reading a message: its header, then its payloads one behind the other, each with its body.
#![tactic(auto)]

ghost use Rattle.std.specs.Prelude.{◌≡◌, ◌-◌, ◌≤◌};
ghost use Rattle.message_chain.specs.Message.{message_told, chain, exchange_and_count, message, payload_at};

use message_header::header_code;
use message_payload::{payload_code, rest_code};
use refusal::Refusal;
use wire_read::{after, be16, byte};

// What a message that reads is: its exchange, and how many payloads it has.
#[derive(Clone, Copy, Debug, PartialEq, Eq)]
pub struct Message {
    pub exchange: u8,
    pub count: u8,
}

// Where a payload lies in its message, and its type.
#[derive(Clone, Copy, Debug, PartialEq, Eq)]
pub struct Payload {
    pub payloadtype: u8,
    pub start: usize,
    pub length: usize,
}

// The payloads from here on, of which so many may come. The first is of that type; offered says whether an SA payload came
// before.
fn chain(
    left: u8,
    exchange: u8,
    flags: u8,
    offered: bool,
    payloadtype: u8,
    s: &[u8],
) -> Result<Message, Refusal>
    requires { left ≤ 32 }
    ensures { message_told result ≡ exchange_and_count exchange (32 - left) (chain left exchange flags offered payloadtype 0 s.now) }
{
    if left == 0 {
        return Err(Refusal::PayloadMalformed);
    }
    payload_code(exchange, offered, payloadtype, s)?;
    let next = byte(s, 0);
    let n = be16(s, 2) as usize;
    let rest = after(s, n);
    if next != 0 {
        return chain(
            left - 1,
            exchange,
            flags,
            offered | (payloadtype == 1),
            next,
            rest,
        );
    }
    rest_code(flags, rest)?;
    Ok(Message {
        exchange,
        count: 33 - left,
    })
}

// Reads a message: 0 payloads are never read, so count is 1 to 32.
pub fn read(m: &[u8]) -> Result<Message, Refusal>
    ensures { message_told result ≡ message m.now }
{
    header_code(m)?;
    chain(
        32,
        byte(m, 18),
        byte(m, 19),
        false,
        byte(m, 16),
        after(m, 28),
    )
}

// Payload k, counted from 0, of a message that reads with more than k payloads.
pub fn payload_at(m: &[u8], k: u8) -> Payload
    ensures { result ≡ payload_at k m.now }
{
    let mut payloadtype = byte(m, 16);
    let mut start: usize = 28;
    for _passed in 0..k {
        payloadtype = byte(m, start);
        start += be16(m, start + 2) as usize;
    }
    let length = be16(m, start + 2) as usize;
    Payload {
        payloadtype,
        start,
        length,
    }
}
