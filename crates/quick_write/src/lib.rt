// The three messages that the ends write.
#![tactic(auto)]

ghost use Rattle.std.specs.Prelude.{◌≡◌, min, ◌+◌, ◌*◌, ◌≤◌, length};
ghost use Rattle.wire_write.specs.Put.{paste, put};
ghost use Rattle.policy_reply.specs.Reply.{sa_of};
ghost use Rattle.quick_write.specs.Messages.{padding, line_proposal, line_set, next_set, line_sets, lines, nonce_of, offer_of, header, around, nonce_and_identities, proposals_of, longer, longer_into, message_three};

use policy_choice::Transforms;
use policy_lines::{quick_count, quick_mode, quick_protocols, quick_seconds};
use policy_reply::{OwnSpis, put_proposal, put_reply};
use policy_suits::quick_id;
use quick_end::Own;
use sa_fields::ProposalNumber;
use wire_read::front;
use wire_write::{put_be32, put_be64, put_bytes, put_head, put_headed};

// What a longer message proposes: the offer by the own book, or a reply with these transforms. These are two kinds of message, and
// none of them the absence of the other.
#[derive(Clone, Copy)]
pub enum Proposals {
    Offer,
    Reply(Transforms),
}

// How many zero bytes a message's payloads are padded with.
fn padding(size: usize) -> usize
    ensures { result ≡ padding size }
{
    (16 - size % 16) % 16
}

fn put_header(buffer: &mut [u8], own: Own, id: u32, size: u32)
    ensures { buffer.new ≡ paste buffer.old 0 (header own id size) }
{
    put_be64(buffer, 0, own.icookie);
    put_be64(buffer, 8, own.rcookie);
    put_bytes(buffer, 16, &[8, 0x11, 32, 1]);
    put_be32(buffer, 20, id);
    put_be32(buffer, 24, size);
}

// Writes the proposal for a protocol of quick line i, counted from 0.
fn put_line_proposal(
    buffer: &mut [u8],
    at: u32,
    ah: u32,
    esp: u32,
    next: u8,
    protocol: u8,
    i: u8,
    book: &[u8],
) -> u32
    requires { i ≤ 8 }
    ensures { put buffer.old at (line_proposal ah esp next protocol i book.now) ≡ (result, buffer.new) }
{
    let own = OwnSpis { ah, esp };
    let number = ProposalNumber(i + 1);
    let id = quick_id(protocol);
    let mode = quick_mode(i, book);
    let seconds = quick_seconds(i, book);
    let high = (seconds / 256 % 256) as u8;
    let low = (seconds % 256) as u8;
    if (quick_protocols(i, book) == 2) & (protocol == 3) {
        let t = [
            0, 0, 0, 0, 1, id, 0, 0, 0x80, 4, 0, mode, 0x80, 1, 0, 1, 0x80, 2, high, low,
        ];
        return put_proposal(buffer, at, own, next, number, protocol, &t) as u32;
    }
    let t = [
        0, 0, 0, 0, 1, id, 0, 0, 0x80, 4, 0, mode, 0x80, 5, 0, 20, 0x80, 1, 0, 1, 0x80, 2, high,
        low,
    ];
    put_proposal(buffer, at, own, next, number, protocol, &t) as u32
}

// Writes the set for quick line i.
fn put_line_set(buffer: &mut [u8], at: u32, ah: u32, esp: u32, next: u8, i: u8, book: &[u8]) -> u32
    requires { (i ≤ 8) × (at ≤ 60000) }
    ensures { put buffer.old at (line_set ah esp next i book.now) ≡ (result, buffer.new) }
{
    if quick_protocols(i, book) == 1 {
        return put_line_proposal(buffer, at, ah, esp, next, 3, i, book);
    }
    let first = put_line_proposal(buffer, at, ah, esp, 2, 2, i, book);
    first + put_line_proposal(buffer, at + first, ah, esp, next, 3, i, book)
}

fn next_set(n: u8) -> u8
    ensures { result ≡ next_set n }
{
    if n <= 1 { 0 } else { 2 }
}

// Writes the sets for the n quick lines from i on.
fn put_line_sets(buffer: &mut [u8], at: u32, n: u8, i: u8, ah: u32, esp: u32, book: &[u8]) -> u32
    requires { (n + i ≤ 8) × (at + 72 * n ≤ 60000) }
    ensures { put buffer.old at (line_sets n i ah esp book.now) ≡ (result, buffer.new) }
{
    if n == 0 {
        return 0;
    }
    let first = put_line_set(buffer, at, ah, esp, next_set(n), i, book);
    first + put_line_sets(buffer, at + first, n - 1, i + 1, ah, esp, book)
}

// How many quick lines are offered: a book has at most 8.
pub fn lines(book: &[u8]) -> u8
    ensures { result ≡ lines book.now }
{
    quick_count(book).min(8)
}

// Writes the SA payload of message 1 at its place.
fn put_offer(buffer: &mut [u8], own: Own) -> u32
    ensures { put buffer.old 64 (sa_of 10 (offer_of own)) ≡ (result, buffer.new) }
{
    let book = front(&own.book, own.booksize as usize);
    let sets = put_line_sets(buffer, 76, lines(book), 0, own.ah, own.esp, book);
    put_bytes(buffer, 68, &[0, 0, 0, 1, 0, 0, 0, 1]);
    put_head(buffer, 64, 10, 12 + sets as usize);
    12 + sets
}

// Writes the SA payload of message 1, or of message 2 with the set that it replies to.
fn put_sa(buffer: &mut [u8], own: Own, proposals: Proposals, set: &[u8]) -> u32
    requires { length set.now ≤ 4096 }
    ensures { put buffer.old 64 (sa_of 10 (proposals_of own proposals set.now)) ≡ (result, buffer.new) }
{
    match proposals {
        Proposals::Offer => put_offer(buffer, own),
        Proposals::Reply(transforms) => {
            let spis = OwnSpis {
                ah: own.ah,
                esp: own.esp,
            };
            put_reply(buffer, 64, 10, spis, transforms, set) as u32
        }
    }
}

fn nonce_size(own: Own) -> usize
    ensures { result ≡ min own.noncesize 256 }
{
    own.noncesize.min(256) as usize
}

// Writes the own nonce, and the identities where there are any.
fn put_nonce(buffer: &mut [u8], at: u32, own: Own, first: &[u8], second: &[u8]) -> u32
    requires { (at ≤ 60000) × (length first.now ≤ 4096) × (length second.now ≤ 4096) }
    ensures { put buffer.old at (nonce_and_identities (nonce_of own) first.now second.now) ≡ (result, buffer.new) }
{
    let size = nonce_size(own);
    let nonce = front(&own.nonce, size);
    if first.len() == 0 {
        return put_headed(buffer, at as usize, 0, nonce) as u32;
    }
    let start = at + put_headed(buffer, at as usize, 5, nonce) as u32;
    let end = start + put_headed(buffer, start as usize, 5, first) as u32;
    end + put_headed(buffer, end as usize, 0, second) as u32 - at
}

// Writes padding and header around payloads of this size; says how long the message is.
fn put_around(buffer: &mut [u8], own: Own, id: u32, size: u32) -> u32
    requires { size ≤ 60000 }
    ensures { around own id size buffer.old ≡ (result, buffer.new) }
{
    let zeros = padding(size as usize);
    put_bytes(buffer, 28 + size as usize, front(&[0; 16], zeros));
    let whole = 28 + size + zeros as u32;
    put_header(buffer, own, id, whole);
    whole
}

// Writes a message of the longer shape, of parts that fit.
fn put_fitting(
    buffer: &mut [u8],
    own: Own,
    id: u32,
    proposals: Proposals,
    set: &[u8],
    first: &[u8],
    second: &[u8],
) -> u16
    requires { (length set.now ≤ 4096) × (length first.now ≤ 4096) × (length second.now ≤ 4096) }
    ensures { put buffer.old 0 (longer own id (proposals_of own proposals set.now) first.now second.now)
        ≡ (result, buffer.new) }
{
    let sa = put_sa(buffer, own, proposals, set);
    put_headed(buffer, 28, 1, &[0; 32]);
    let rest = put_nonce(buffer, 64 + sa, own, first, second);
    put_around(buffer, own, id, 36 + sa + rest) as u16
}

// Writes a message of the longer shape; says how long it is. A set or an identity over 4,096 bytes is too long for one, and nothing is
// written.
pub fn put_longer(
    buffer: &mut [u8],
    own: Own,
    id: u32,
    proposals: Proposals,
    set: &[u8],
    first: &[u8],
    second: &[u8],
) -> Option<u16>
    ensures { longer_into buffer.old own id proposals set.now first.now second.now
        ≡ (result, buffer.new) }
{
    if (4096 < set.len()) | (4096 < first.len()) | (4096 < second.len()) {
        return None;
    }
    Some(put_fitting(buffer, own, id, proposals, set, first, second))
}

// Writes message 3.
pub fn put_three(buffer: &mut [u8], own: Own, id: u32) -> u16
    ensures { put buffer.old 0 (message_three own id) ≡ (result, buffer.new) }
{
    put_headed(buffer, 28, 0, &[0; 32]);
    put_around(buffer, own, id, 36) as u16
}
