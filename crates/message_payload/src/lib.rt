// One payload, its body, and what may follow the last. A slice begins at the payload. Exchange and type are numbers, since every function
// answers for any.
#![tactic(auto)]

ghost use Rattle.std.specs.Prelude.{◌≡◌};
ghost use Rattle.refusal.specs.Numbers.{coded};
ghost use Rattle.message_payload.specs.Payloads.{type_wrong, length_out, hash_code, nonce_code, certificate_code, body_code, body_of, payload_code, rest_code};

use identity::identity_code;
use refusal::Refusal;
use sa_proposals::offer_code;
use wire_read::{after, all_zero, be16, byte, front};

fn type_wrong(exchange: u8, payloadtype: u8) -> bool
    ensures { result ≡ type_wrong exchange payloadtype }
{
    !((payloadtype == 1)
        | (4 <= payloadtype) & (payloadtype <= 13)
        | (payloadtype == 20)
        | (payloadtype == 21)
        | (payloadtype == 128))
        | (exchange == 5) & ((payloadtype == 1) | (payloadtype == 5))
}

fn length_out(s: &[u8]) -> bool
    ensures { result ≡ length_out s.now }
{
    let n = be16(s, 2) as usize;
    (n < 4) | (s.len() < n)
}

fn hash_code(body: &[u8]) -> Result<(), Refusal>
    ensures { coded result ≡ hash_code body.now }
{
    if body.len() == 32 {
        Ok(())
    } else {
        Err(Refusal::PayloadMalformed)
    }
}

fn nonce_code(body: &[u8]) -> Result<(), Refusal>
    ensures { coded result ≡ nonce_code body.now }
{
    if (8 <= body.len()) & (body.len() <= 256) {
        Ok(())
    } else {
        Err(Refusal::PayloadMalformed)
    }
}

fn certificate_code(body: &[u8]) -> Result<(), Refusal>
    ensures { coded result ≡ certificate_code body.now }
{
    if body.len() == 0 {
        return Err(Refusal::PayloadMalformed);
    }
    let encoding = byte(body, 0);
    if (encoding == 4) | (encoding == 5) {
        Ok(())
    } else {
        Err(Refusal::InvalidCertEncoding)
    }
}

fn body_code(exchange: u8, offered: bool, payloadtype: u8, body: &[u8]) -> Result<(), Refusal>
    ensures { coded result ≡ body_code exchange offered payloadtype body.now }
{
    match payloadtype {
        1 => {
            if offered {
                Err(Refusal::BadProposalSyntax)
            } else {
                offer_code(exchange, body)
            }
        }
        5 => identity_code(exchange, body),
        6 => certificate_code(body),
        8 => hash_code(body),
        10 => nonce_code(body),
        _ => Ok(()),
    }
}

// The body of the payload.
fn body_of(s: &[u8]) -> &[u8]
    ensures { result.now ≡ body_of s.now }
{
    after(front(s, be16(s, 2) as usize), 4)
}

// 0 where the payload is lawful, else the refusal; offered says whether an SA payload came before.
pub fn payload_code(exchange: u8, offered: bool, payloadtype: u8, s: &[u8]) -> Result<(), Refusal>
    ensures { coded result ≡ payload_code exchange offered payloadtype s.now }
{
    if type_wrong(exchange, payloadtype) {
        return Err(Refusal::InvalidPayloadType);
    }
    if s.len() < 4 {
        return Err(Refusal::PayloadMalformed);
    }
    if byte(s, 1) != 0 {
        return Err(Refusal::PayloadMalformed);
    }
    if length_out(s) {
        return Err(Refusal::UnequalPayloadLengths);
    }
    body_code(exchange, offered, payloadtype, body_of(s))
}

// What follows the last payload: nothing, or with flag 1 up to 15 zero bytes.
pub fn rest_code(flags: u8, rest: &[u8]) -> Result<(), Refusal>
    ensures { coded result ≡ rest_code flags rest.now }
{
    if rest.len() == 0 {
        return Ok(());
    }
    if (flags == 0) | (15 < rest.len()) {
        return Err(Refusal::UnequalPayloadLengths);
    }
    if all_zero(rest) {
        Ok(())
    } else {
        Err(Refusal::PayloadMalformed)
    }
}
