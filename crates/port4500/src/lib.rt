// Telling apart what arrives at port 4500: keepalives, key exchange messages behind their marker, and ESP packets.
#![tactic(auto)]

ghost use Rattle.std.specs.Prelude.{◌≡◌};
ghost use Rattle.port4500.specs.Port.{datagram, datagram_told, handed_on};

use refusal::Refusal;
use wire_read::{after, equal, front};

#[derive(Clone, Copy, Debug, PartialEq, Eq)]
pub enum Datagram {
    Keepalive,
    // Where the key exchange message lies in the datagram.
    KeyExchange { start: usize, length: usize },
    // The whole datagram.
    Esp { length: usize },
}

// What a datagram is.
pub fn read(s: &[u8]) -> Result<Datagram, Refusal>
    ensures { datagram_told result ≡ datagram s.now }
{
    if equal(s, b"\xff") {
        return Ok(Datagram::Keepalive);
    }
    if s.len() < 4 {
        return Err(Refusal::PayloadMalformed);
    }
    if equal(front(s, 4), b"\0\0\0\0") {
        return Ok(Datagram::KeyExchange {
            start: 4,
            length: s.len() - 4,
        });
    }
    Ok(Datagram::Esp { length: s.len() })
}

// The part that the next reader takes: the message of a key exchange, an ESP packet whole; of anything else nothing.
pub fn handed_on(s: &[u8]) -> &[u8]
    ensures { result.now ≡ handed_on (datagram s.now) s.now }
{
    match read(s) {
        Ok(Datagram::KeyExchange { start, .. }) => after(s, start),
        Ok(Datagram::Esp { .. }) => s,
        Ok(Datagram::Keepalive) => &[],
        Err(_) => &[],
    }
}
