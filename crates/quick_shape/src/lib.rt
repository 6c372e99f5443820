// The shape of a message and what is read by it: whether two are equal apart from the hash, and the nonce. Every function takes any bytes.
#![tactic(auto)]

ghost use Rattle.std.specs.Prelude.{◌≡◌};
ghost use Rattle.message_chain.specs.Message.{message_by};
ghost use Rattle.quick_shape.specs.Shapes.{type_is, shape, is_longer, alike, count_of, shape_of, nonce_in, nonce};

use message_chain::{Message, payload_at};
use policy_choice::choose::body_at;
use quick_end::Role;
use refusal::Numbered;
use wire_read::{after, equal, front};

fn type_is(k: u8, m: &[u8], payloadtype: u8) -> bool
    ensures { result ≡ type_is k m.now payloadtype }
{
    let p = payload_at(m, k);
    p.payloadtype == payloadtype
}

// The count of payloads where their types are those of a quick mode message, else 0.
pub fn shape(count: u8, m: &[u8]) -> u8
    ensures { result ≡ shape count m.now }
{
    let longer = type_is(1, m, 1) & type_is(2, m, 10);
    let identities = (count == 5) & type_is(3, m, 5) & type_is(4, m, 5);
    if type_is(0, m, 8) & ((count == 1) | longer & ((count == 3) | identities)) {
        count
    } else {
        0
    }
}

pub fn is_longer(shape: u8) -> bool
    ensures { result ≡ is_longer shape }
{
    (shape == 3) | (shape == 5)
}

// Whether two messages are equal apart from the 32 hash bytes.
pub fn alike(m: &[u8], n: &[u8]) -> bool
    ensures { result ≡ alike m.now n.now }
{
    (m.len() == n.len()) & equal(front(m, 32), front(n, 32)) & equal(after(m, 64), after(n, 64))
}

pub fn count_of<R: Numbered>(read: Result<Message, R>) -> u8
    ensures { result ≡ count_of (message_by R.numbered read) }
{
    match read {
        Ok(message) => message.count,
        Err(_) => 0,
    }
}

// The shape of a message: 1, 3, 5 by its count of payloads, or 0.
pub fn shape_of(m: &[u8]) -> u8
    ensures { result ≡ shape_of m.now }
{
    shape(count_of(message_chain::read(m)), m)
}

fn nonce_in(m: &[u8]) -> &[u8]
    ensures { result.now ≡ nonce_in m.now }
{
    let Ok(Message { exchange, count }) = message_chain::read(m) else {
        return front(m, 0);
    };
    if (exchange == 32) & is_longer(shape(count, m)) {
        return body_at(2, m);
    }
    front(m, 0)
}

// The nonce as it stands in the initiator's or the responder's message; no bytes unless that message reads as exchange 32 in either longer
// shape. Message 3 overwrites the start of an initiator's `sent`: its own nonce is in its record.
pub fn nonce<'a>(role: Role, initiators: &'a [u8], responders: &'a [u8]) -> &'a [u8]
    ensures { result.now ≡ nonce role initiators.now responders.now }
{
    match role {
        Role::Initiator => nonce_in(initiators),
        Role::Responder => nonce_in(responders),
    }
}
