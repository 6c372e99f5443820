// Bytes in hex: two digits of either case for each byte, or `-` for no bytes.
ghost use Rattle.std.specs.Prelude.{◌≡◌, ◌+◌, ◌≤◌, ◌<◌};
ghost use Rattle.bench_words.specs.Hex.{digit_of, Decoding, Parting};

use wire_read::equal;

// The value of a digit.
pub(crate) fn value(digit: u8) -> Option<u8>
    ensures { result ≡ digit_of digit }
{
    match digit {
        b'0'..=b'9' => Some(digit - b'0'),
        b'a'..=b'f' => Some(digit - b'a' + 10),
        b'A'..=b'F' => Some(digit - b'A' + 10),
        _ => None,
    }
}

// The digit of a value.
pub(crate) fn digit(value: u8) -> u8
    requires { value < 16 }
    ensures decimal { value < 10 → result ≡ 48 + value }
    ensures lower { 10 ≤ value → result ≡ 87 + value }
{
    if value < 10 {
        b'0' + value
    } else {
        b'a' + (value - 10)
    }
}

// Puts the bytes of a word into the buffer from a place on, and gives back the place behind the last. A word that is no
// bytes, or does not fit, gives none, and may have been put in part.
pub fn decode(word: &[u8], bytes: &mut [u8], at: usize) -> Option<usize>
    ensures { Decoding word.now at bytes.old result bytes.new }
{
    // By `equal`: a match on byte strings leaves a goal for each way out, and they did not close.
    if equal(word, b"-") {
        return Some(at);
    }
    if word.len() == 0 {
        return None;
    }
    let mut to = at;
    for pair in word.chunks(2) {
        let [high, low] = pair else {
            return None;
        };
        let high = value(*high)?;
        let low = value(*low)?;
        if bytes.len() <= to {
            return None;
        }
        bytes[to] = high * 16 + low;
        to += 1;
    }
    Some(to)
}

// Puts the bytes of two words into the buffer, the second's behind the first's, and gives back the places behind the last byte of
// each.
pub fn decode_two(first: &[u8], second: &[u8], bytes: &mut [u8]) -> Option<(usize, usize)>
    ensures { Parting first.now second.now bytes.old result bytes.new }
{
    let middle = decode(first, bytes, 0)?;
    let end = decode(second, bytes, middle)?;
    Some((middle, end))
}
