// The checks of a message's header, in the document's order.
#![tactic(auto)]

ghost use Rattle.std.specs.Prelude.{◌≡◌};
ghost use Rattle.refusal.specs.Numbers.{coded};
ghost use Rattle.message_header.specs.Header.{length_wrong, major_wrong, minor_wrong, exchange_refused, exchange_unknown, flags_wrong, cookie_zero, message_id_wrong, flagged_length_wrong, no_payload, header_code};

use refusal::Refusal;
use wire_read::{after, all_zero, be32, byte, front};

fn length_wrong(m: &[u8]) -> bool
    ensures { result ≡ length_wrong m.now }
{
    (m.len() < 28) | (8192 < m.len()) | (be32(m, 24) as usize != m.len())
}

fn major_wrong(m: &[u8]) -> bool
    ensures { result ≡ major_wrong m.now }
{
    byte(m, 17) / 16 != 1
}

fn minor_wrong(m: &[u8]) -> bool
    ensures { result ≡ minor_wrong m.now }
{
    byte(m, 17) % 16 != 1
}

fn exchange_refused(m: &[u8]) -> bool
    ensures { result ≡ exchange_refused m.now }
{
    let exchange = byte(m, 18);
    (exchange == 1) | (exchange == 3)
}

fn exchange_unknown(m: &[u8]) -> bool
    ensures { result ≡ exchange_unknown m.now }
{
    let exchange = byte(m, 18);
    !((exchange == 2) | (exchange == 5) | (exchange == 32))
}

fn flags_wrong(m: &[u8]) -> bool
    ensures { result ≡ flags_wrong m.now }
{
    1 < byte(m, 19)
}

fn cookie_zero(m: &[u8]) -> bool
    ensures { result ≡ cookie_zero m.now }
{
    let responder = front(after(m, 8), 8);
    all_zero(front(m, 8)) | (byte(m, 18) == 32) & all_zero(responder)
}

fn message_id_wrong(m: &[u8]) -> bool
    ensures { result ≡ message_id_wrong m.now }
{
    let exchange = byte(m, 18);
    let id = be32(m, 20);
    (exchange == 2) & (id != 0) | (exchange == 32) & (id == 0)
}

fn flagged_length_wrong(m: &[u8]) -> bool
    ensures { result ≡ flagged_length_wrong m.now }
{
    (byte(m, 19) == 1) & (after(m, 28).len() % 16 != 0)
}

fn no_payload(m: &[u8]) -> bool
    ensures { result ≡ no_payload m.now }
{
    byte(m, 16) == 0
}

// 0 where the header is lawful, else the refusal.
pub fn header_code(m: &[u8]) -> Result<(), Refusal>
    ensures { coded result ≡ header_code m.now }
{
    if length_wrong(m) {
        return Err(Refusal::UnequalPayloadLengths);
    }
    if major_wrong(m) {
        return Err(Refusal::InvalidMajorVersion);
    }
    if minor_wrong(m) {
        return Err(Refusal::InvalidMinorVersion);
    }
    if exchange_refused(m) {
        return Err(Refusal::UnsupportedExchangeType);
    }
    if exchange_unknown(m) {
        return Err(Refusal::InvalidExchangeType);
    }
    if flags_wrong(m) {
        return Err(Refusal::InvalidFlags);
    }
    if cookie_zero(m) {
        return Err(Refusal::InvalidCookie);
    }
    if message_id_wrong(m) {
        return Err(Refusal::InvalidMessageId);
    }
    if flagged_length_wrong(m) {
        return Err(Refusal::UnequalPayloadLengths);
    }
    if no_payload(m) {
        Err(Refusal::PayloadMalformed)
    } else {
        Ok(())
    }
}
