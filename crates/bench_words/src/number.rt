// A word that is a number: in decimal, as the four bytes in hex of a destination or an SPI, or as the eight of a cookie.
ghost use Rattle.std.specs.Prelude.{◌≡◌};
ghost use Rattle.bench_words.specs.Number.{decimal, four_bytes, eight_bytes};

use crate::hex;
use crate::hex::value;
use wire_read::{be32, byte};

// A number in decimal, up to the most that is lawful. A zero before other digits is wrong.
pub fn decimal(word: &[u8], most: u32) -> Option<u32>
    ensures { result ≡ decimal word.now most }
{
    if (word.len() == 0) | ((1 < word.len()) & (byte(word, 0) == b'0')) {
        return None;
    }
    let mut n = 0u64;
    for digit in word {
        let digit = value(*digit)?;
        let next = n * 10 + digit as u64;
        if 9 < digit {
            return None;
        }
        if (most as u64) < next {
            return None;
        }
        n = next;
    }
    Some(n as u32)
}

// Eight digits in hex, no fewer and no more.
pub fn four_bytes(word: &[u8]) -> Option<u32>
    ensures { result ≡ four_bytes word.now }
{
    let mut bytes = [0u8; 4];
    let end = hex::decode(word, &mut bytes, 0)?;
    if end == 4 {
        Some(be32(&bytes, 0))
    } else {
        None
    }
}

// Sixteen digits in hex, no fewer and no more.
pub fn eight_bytes(word: &[u8]) -> Option<u64>
    ensures { result ≡ eight_bytes word.now }
{
    let mut bytes = [0u8; 8];
    let end = hex::decode(word, &mut bytes, 0)?;
    if end == 8 {
        Some(be32(&bytes, 0) as u64 * 4294967296 + be32(&bytes, 4) as u64)
    } else {
        None
    }
}
