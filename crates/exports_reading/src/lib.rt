// What other languages call to read: datagrams, messages, payloads, identities and DER.
#![tactic(auto)]

ghost use Rattle.std.specs.Prelude.{◌≡◌};
ghost use Rattle.der.specs.Der.{is_element, is_name};
ghost use Rattle.exports_words.specs.Given.{given};
ghost use Rattle.identity.specs.Identity.{identity_code};
ghost use Rattle.message_chain.specs.Message.{message, message_answer};
ghost use Rattle.port4500.specs.Port.{datagram, datagram_answer};
ghost use Rattle.exports_reading.specs.Names.{lawful_code};
ghost use Rattle.exports_reading.specs.Payloads.{payload_answer};

use der::{is_element, is_name};
use identity::identity_code;
use message_chain::{Message, payload_at};
use port4500::Datagram;

// What a datagram is: 1 a keepalive; 2 a key exchange, with start and length of its message; 3 an ESP packet, with its length.
pub fn tallowbrim_datagram(s: &[u8], out: &mut [u64; 3]) -> u32
    ensures { given 3 (datagram_answer (datagram s.now)) out.old ≡ (result, out.new) }
{
    match port4500::read(s) {
        Ok(Datagram::Keepalive) => *out = [1, 0, 0],
        Ok(Datagram::KeyExchange { start, length }) => *out = [2, start as u64, length as u64],
        Ok(Datagram::Esp { length }) => *out = [3, length as u64, 0],
        Err(refusal) => return u32::from(refusal),
    }
    0
}

// Reads a message: its exchange, and how many payloads it has.
pub fn tallowbrim_message(m: &[u8], out: &mut [u64; 2]) -> u32
    ensures { given 2 (message_answer (message m.now)) out.old ≡ (result, out.new) }
{
    match message_chain::read(m) {
        Err(refusal) => u32::from(refusal),
        Ok(Message { exchange, count }) => {
            *out = [exchange as u64, count as u64];
            0
        }
    }
}

// A payload of a message, counted from 0: its type, where it begins, how many bytes it has.
pub fn tallowbrim_payload(m: &[u8], place: u8, out: &mut [u64; 3]) -> u32
    ensures { given 3 (payload_answer place m.now) out.old ≡ (result, out.new) }
{
    match message_chain::read(m) {
        Err(refusal) => u32::from(refusal),
        Ok(read) => {
            if read.count <= place {
                return 16;
            }
            let p = payload_at(m, place);
            *out = [p.payloadtype as u64, p.start as u64, p.length as u64];
            0
        }
    }
}

// Whether the body of an identification payload is lawful in an exchange: 0, or 18.
pub fn tallowbrim_identity(exchange: u8, s: &[u8]) -> u32
    ensures { result ≡ identity_code exchange s.now }
{
    match identity_code(exchange, s) {
        Err(refusal) => u32::from(refusal),
        Ok(()) => 0,
    }
}

fn lawful_code(lawful: bool) -> u32
    ensures { result ≡ lawful_code lawful }
{
    if lawful { 0 } else { 18 }
}

// Whether bytes are one name: 0, or 18.
pub fn tallowbrim_name(s: &[u8]) -> u32
    ensures { result ≡ lawful_code (is_name s.now) }
{
    lawful_code(is_name(s))
}

// Whether bytes are one DER element: 0, or 18.
pub fn tallowbrim_element(s: &[u8]) -> u32
    ensures { result ≡ lawful_code (is_element s.now) }
{
    lawful_code(is_element(s))
}
