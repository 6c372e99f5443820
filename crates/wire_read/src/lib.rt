// Reading bytes: big-endian numbers, parts, comparison. Every function takes any slice and any place: a byte past the end
// reads as 0, and a part past the end is empty.
#![tactic(auto)]

pub mod parted; // parted.rt: what lies one behind the other

ghost use Rattle.std.specs.Prelude.{◌≡◌, get_or, take, drop};
ghost use Rattle.wire_read.specs.Wire.{number_at, BytesAt, all_zero, equal};

// The byte at a place.
pub fn byte(s: &[u8], at: usize) -> u8
    ensures { result ≡ get_or s.now at 0 }
{
    s.get(at).copied().unwrap_or(0)
}

// The N bytes from a place on, with zeros past the end.
fn bytes_at<const N: usize>(s: &[u8], at: usize) -> [u8; N]
    ensures { BytesAt N s.now at result }
{
    let rest = after(s, at);
    if let Some(whole) = rest.first_chunk() {
        return *whole;
    }
    // Of reads past the end most have nothing left, and a copy of nothing would be a call all the same.
    if rest.is_empty() {
        return [0; N];
    }
    let mut bytes = [0; N];
    bytes[..rest.len()].copy_from_slice(rest);
    bytes
}

// The 16-bit number at a place.
pub fn be16(s: &[u8], at: usize) -> u16
    ensures { result ≡ number_at 2 s.now at }
{
    u16::from_be_bytes(bytes_at(s, at))
}

// The 32-bit number at a place.
pub fn be32(s: &[u8], at: usize) -> u32
    ensures { result ≡ number_at 4 s.now at }
{
    u32::from_be_bytes(bytes_at(s, at))
}

// The 64-bit number at a place.
pub fn be64(s: &[u8], at: usize) -> u64
    ensures { result ≡ number_at 8 s.now at }
{
    u64::from_be_bytes(bytes_at(s, at))
}

// The first n bytes; all, where there are fewer.
pub fn front(s: &[u8], n: usize) -> &[u8]
    ensures { result.now ≡ take n s.now }
{
    s.get(..n).unwrap_or(s)
}

// The bytes from n on; none, where n is past the end.
pub fn after(s: &[u8], n: usize) -> &[u8]
    ensures { result.now ≡ drop n s.now }
{
    s.get(n..).unwrap_or(&[])
}

// Whether every byte is zero.
pub fn all_zero(s: &[u8]) -> bool
    ensures { result ≡ all_zero s.now }
{
    s.iter().all(|b| *b == 0)
}

// Whether two parts are the same bytes, and as many.
pub fn equal(a: &[u8], b: &[u8]) -> bool
    ensures { result ≡ equal a.now b.now }
{
    a == b
}
