// The SPI and the sequence number of a packet.
//   AH   next header (1), length (1), reserved (2), SPI (4), number (4), integrity value
//   ESP  SPI (4), number (4), the rest enciphered
#![tactic(auto)]

ghost use Rattle.std.specs.Prelude.{◌≡◌};
ghost use Rattle.sequence_packet.specs.Packets.{known, ah, esp, read};
ghost use Rattle.sequence_packet.specs.Packet.{packet_told};

use refusal::Refusal;
use wire_read::{be16, be32, byte};

#[derive(Clone, Copy, Debug, PartialEq, Eq)]
pub struct Packet {
    pub spi: u32,
    pub number: u32,
}

pub fn known(protocol: u8) -> bool
    ensures { result ≡ known protocol }
{
    (protocol == 2) | (protocol == 3)
}

fn ah(s: &[u8]) -> Result<Packet, Refusal>
    ensures { packet_told result ≡ ah s.now }
{
    let size = (byte(s, 1) as usize + 2) * 4;
    if (12 <= s.len()) & (be16(s, 2) == 0) & (12 <= size) & (size <= s.len()) {
        Ok(Packet {
            spi: be32(s, 4),
            number: be32(s, 8),
        })
    } else {
        Err(Refusal::PayloadMalformed)
    }
}

fn esp(s: &[u8]) -> Result<Packet, Refusal>
    ensures { packet_told result ≡ esp s.now }
{
    if 8 <= s.len() {
        Ok(Packet {
            spi: be32(s, 0),
            number: be32(s, 4),
        })
    } else {
        Err(Refusal::PayloadMalformed)
    }
}

// The packet of a protocol, 2 for AH and 3 for ESP, from its first byte to its last.
pub fn read(protocol: u8, s: &[u8]) -> Result<Packet, Refusal>
    ensures { packet_told result ≡ read protocol s.now }
{
    match protocol {
        2 => ah(s),
        3 => esp(s),
        _ => Err(Refusal::InvalidProtocolId),
    }
}
