// Writing bytes: big-endian numbers, and what begins with its length. Every function takes any buffer and any place: what
// does not fit is not written.
#![tactic(auto)]

ghost use Rattle.std.specs.Prelude.{◌≡◌, [], ◌∷◌};
ghost use Rattle.wire_write.specs.Put.{bytes_of, head, headed, paste, put};

// Writes a run of bytes over the buffer from a place on.
pub fn put_bytes(buffer: &mut [u8], at: usize, bytes: &[u8])
    ensures { buffer.new ≡ paste buffer.old at bytes.now }
{
    let from = at.min(buffer.len());
    let n = bytes.len().min(buffer.len() - from);
    // By no copy_from_slice, which is memmove: the archives for C need memcpy and memset from outside, and nothing else.
    for i in 0..n {
        buffer[from + i] = bytes[i];
    }
}

// Writes a byte.
pub fn put_byte(buffer: &mut [u8], at: usize, b: u8)
    ensures { buffer.new ≡ paste buffer.old at (b ∷ []) }
{
    put_bytes(buffer, at, &[b]);
}

// Writes a 16-bit number. It and the two like it are a line each: one over a trait of three types would be longer.
pub fn put_be16(buffer: &mut [u8], at: usize, x: u16)
    ensures { buffer.new ≡ paste buffer.old at (bytes_of 2 x) }
{
    put_bytes(buffer, at, &x.to_be_bytes());
}

// Writes a 32-bit number.
pub fn put_be32(buffer: &mut [u8], at: usize, long: u32)
    ensures { buffer.new ≡ paste buffer.old at (bytes_of 4 long) }
{
    put_bytes(buffer, at, &long.to_be_bytes());
}

// Writes a 64-bit number.
pub fn put_be64(buffer: &mut [u8], at: usize, wide: u64)
    ensures { buffer.new ≡ paste buffer.old at (bytes_of 8 wide) }
{
    put_bytes(buffer, at, &wide.to_be_bytes());
}

// Writes what a payload, a proposal and a transform begin with: next, reserved, and the length.
pub fn put_head(buffer: &mut [u8], at: usize, next: u8, size: usize)
    ensures { buffer.new ≡ paste buffer.old at (head next size) }
{
    let [high, low] = ((size % 65536) as u16).to_be_bytes();
    put_bytes(buffer, at, &[next, 0, high, low]);
}

// Writes that and what follows it; says how many bytes these are.
pub fn put_headed(buffer: &mut [u8], at: usize, next: u8, rest: &[u8]) -> usize
    ensures { put buffer.old at (headed next rest.now) ≡ (result, buffer.new) }
{
    let size = 4 + rest.len();
    if buffer.len() <= at {
        return size;
    }
    put_head(buffer, at, next, size);
    put_bytes(buffer, at + 4, rest);
    size
}
