// Bytes in which parts lie one behind the other. A type says how the first is taken off; the functions here serve every such type, and
// take any bytes.
ghost use Rattle.std.specs.Prelude.{◌≡◌};
ghost use Rattle.wire_read.specs.Wire.{Bytes};
ghost use Rattle.wire_read.specs.Parts.{skip, parts, numbered};

use crate::{byte, front};

pub trait Parted {
    ghost first_part: { Bytes → Bytes };

    ghost after_part: { Bytes → Bytes };

    // The first part, which is asked of the bytes from it on.
    fn first_part(s: &[u8]) -> &[u8]
        ensures { result.now ≡ first_part s.now };

    // What lies behind it.
    fn after_part(s: &[u8]) -> &[u8]
        ensures { result.now ≡ after_part s.now };
}

// The bytes behind the first k parts.
pub fn skip<P: Parted>(k: u8, s: &[u8]) -> &[u8]
    ensures { result.now ≡ skip P.after_part k s.now }
{
    let mut rest = s;
    for _skipped in 0..k {
        rest = P::after_part(rest);
    }
    rest
}

// How many parts there are, at most so many.
pub fn parts<P: Parted>(most: u8, s: &[u8]) -> u8
    ensures { result ≡ parts P.after_part most s.now }
{
    let mut rest = s;
    for counted in 0..most {
        if rest.is_empty() {
            return counted;
        }
        rest = P::after_part(rest);
    }
    most
}

// The first of at most so many parts that has this number in its byte 4; no bytes where there is none.
pub fn numbered<P: Parted>(most: u8, number: u8, s: &[u8]) -> &[u8]
    ensures { result.now ≡ numbered P.first_part P.after_part most number s.now }
{
    let mut rest = s;
    for _passed in 0..most {
        if byte(rest, 4) == number {
            return P::first_part(rest);
        }
        rest = P::after_part(rest);
    }
    front(s, 0)
}
