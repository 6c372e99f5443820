// One DER element: a tag, a length in its shortest form, and contents, which in a constructed element are a list of elements.
// The element check calls the list check and back; the levels that are left bound how deep, and the list goes by a loop.
#![tactic(auto)]

ghost use Rattle.std.specs.Prelude.{◌≡◌};
ghost use Rattle.der.specs.Der.{tag_wrong, constructed, head_size, body_size, size, filled, element, is_element, is_name};

use wire_read::{after, be16, byte, front};

fn tag_wrong(s: &[u8]) -> bool
    ensures { result ≡ tag_wrong s.now }
{
    byte(s, 0) % 32 == 31
}

fn constructed(s: &[u8]) -> bool
    ensures { result ≡ constructed s.now }
{
    byte(s, 0) / 32 % 2 == 1
}

// The bytes that tag and length take; 0 where the length is not in its shortest form of at most three bytes.
fn head_size(s: &[u8]) -> u16
    ensures { result ≡ head_size s.now }
{
    let first = byte(s, 1);
    if first < 0x80 {
        2
    } else if (first == 0x81) & (0x80 <= byte(s, 2)) {
        3
    } else if (first == 0x82) & (0x100 <= be16(s, 2)) {
        4
    } else {
        0
    }
}

// The length, where it is in such a form.
fn body_size(s: &[u8]) -> u16
    ensures { result ≡ body_size s.now }
{
    let first = byte(s, 1);
    if first < 0x80 {
        first as u16
    } else if first == 0x81 {
        byte(s, 2) as u16
    } else {
        be16(s, 2)
    }
}

// The size of the element by its tag and length alone, 0 where it is none.
fn size(s: &[u8]) -> usize
    ensures { result ≡ size s.now }
{
    let head = head_size(s);
    let n = head as usize + body_size(s) as usize;
    if tag_wrong(s) | (head == 0) | (s.len() < n) {
        0
    } else {
        n
    }
}

// The size of the element at the front of s, 0 where none is. So many levels may be used, its own among them.
#[cycle(element_list)]
fn element(levels: u8, s: &[u8]) -> usize
    ensures { result ≡ element levels s.now }
{
    if levels == 0 {
        return 0;
    }
    let n = size(s);
    if n == 0 {
        return 0;
    }
    if constructed(s) {
        let body = front(after(s, head_size(s) as usize), body_size(s) as usize);
        if list(levels - 1, body) { n } else { 0 }
    } else {
        n
    }
}

// Whether s is elements and nothing else.
#[cycle(element_list)]
fn list(levels: u8, s: &[u8]) -> bool
    ensures { result ≡ filled (element levels) s.now }
{
    let mut rest = s;
    // Each element has its own size, so no iterator steps from one to the next.
    while !rest.is_empty() {
        let n = element(levels, rest);
        if n == 0 {
            return false;
        }
        rest = after(rest, n);
    }
    true
}

// Whether s is one element and nothing else.
pub fn is_element(s: &[u8]) -> bool
    ensures { result ≡ is_element s.now }
{
    let n = element(8, s);
    (n != 0) & (n == s.len())
}

// Whether s is one element with the tag of a name, and nothing else.
pub fn is_name(s: &[u8]) -> bool
    ensures { result ≡ is_name s.now }
{
    is_element(s) & (byte(s, 0) == 0x30)
}
