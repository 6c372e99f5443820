// How the attributes of a transform are to be coded. A slice begins at an attribute. Exchange and type are numbers, since every function
// answers for any.
#![tactic(auto)]

ghost use Rattle.std.specs.Prelude.{◌≡◌, ◌-◌, get_or, eqb};
ghost use Rattle.refusal.specs.Numbers.{coded};
ghost use Rattle.wire_read.specs.Wire.{number_at};
ghost use Rattle.wire_read.specs.Tests.{if◌then◌otherwise◌};
ghost use Rattle.sa_coding.specs.Coding.{out_of_bounds, must_be_fixed, fixed_wrong, is_duration, duration_wrong, is_life_type, value_length, from_value, whole_value, alike, repeats, stands_wrong, attribute_code, attributes_code};

use refusal::Refusal;
use sa_attribute::{attribute_size, attribute_type, sent_fixed};
use wire_read::{after, be16, byte, front};

fn out_of_bounds(s: &[u8]) -> bool
    ensures { result ≡ out_of_bounds s.now }
{
    (s.len() < 4) | (s.len() < attribute_size(s))
}

fn must_be_fixed(exchange: u8, attributetype: u16) -> bool
    ensures { result ≡ must_be_fixed exchange attributetype }
{
    (exchange == 2)
        & ((1 <= attributetype) & (attributetype <= 5)
            | (attributetype == 11)
            | (13 <= attributetype) & (attributetype <= 15)
            | (attributetype == 17)
            | (attributetype == 20))
        | (exchange == 32) & ((attributetype == 1) | (3 <= attributetype) & (attributetype <= 8))
}

fn fixed_wrong(exchange: u8, s: &[u8]) -> bool
    ensures { result ≡ fixed_wrong exchange s.now }
{
    must_be_fixed(exchange, attribute_type(s)) & !sent_fixed(s)
}

fn is_duration(exchange: u8, attributetype: u16) -> bool
    ensures { result ≡ is_duration exchange attributetype }
{
    (exchange == 2) & (attributetype == 12) | (exchange == 32) & (attributetype == 2)
}

fn duration_wrong(exchange: u8, s: &[u8]) -> bool
    ensures { result ≡ duration_wrong exchange s.now }
{
    let n = be16(s, 2);
    is_duration(exchange, attribute_type(s)) & !sent_fixed(s) & !((1 <= n) & (n <= 4))
}

fn is_life_type(exchange: u8, attributetype: u16) -> bool
    ensures { result ≡ is_life_type exchange attributetype }
{
    (exchange == 2) & (attributetype == 11) | (exchange == 32) & (attributetype == 1)
}

// How many bytes the value has, and the bytes from it on.
fn value_length(s: &[u8]) -> u16
    ensures { result ≡ value_length s.now }
{
    if sent_fixed(s) { 2 } else { be16(s, 2) }
}

fn from_value(s: &[u8]) -> &[u8]
    ensures { result.now ≡ from_value s.now }
{
    if sent_fixed(s) {
        after(s, 2)
    } else {
        after(s, 4)
    }
}

// The last of the first n bytes; 0 where there are none.
fn last_byte(n: u16, s: &[u8]) -> u8
    ensures { result ≡ (if eqb n 0 then 0 otherwise get_or s.now (n - 1) 0) }
{
    if n == 0 { 0 } else { byte(s, (n - 1) as usize) }
}

// Whether the first n bytes of a and the first m of b spell the same number: compared from the last on, so that a value
// of any length gets its answer.
fn same_number(n: u16, a: &[u8], m: u16, b: &[u8]) -> bool
    ensures { result ≡ eqb (number_at n a.now 0) (number_at m b.now 0) }
{
    let mut p = n;
    let mut q = m;
    // Two places fall, the longer value's further: an iterator over one of them would not say it plainer.
    while (p != 0) | (q != 0) {
        if last_byte(p, a) != last_byte(q, b) {
            return false;
        }
        p = p.saturating_sub(1);
        q = q.saturating_sub(1);
    }
    true
}

fn same_value(a: &[u8], b: &[u8]) -> bool
    ensures { result ≡ eqb (whole_value a.now) (whole_value b.now) }
{
    same_number(
        value_length(a),
        from_value(a),
        value_length(b),
        from_value(b),
    )
}

fn alike(exchange: u8, a: &[u8], s: &[u8]) -> bool
    ensures { result ≡ alike exchange a.now s.now }
{
    let attributetype = attribute_type(s);
    if attribute_type(a) != attributetype {
        return false;
    }
    if !is_life_type(exchange, attributetype) {
        return true;
    }
    same_value(a, s)
}

// Whether one of the first `most` attributes before it is alike.
fn repeats(most: u8, exchange: u8, before: &[u8], s: &[u8]) -> bool
    ensures { result ≡ repeats most exchange before.now s.now }
{
    let mut rest = before;
    for _passed in 0..most {
        if rest.len() < 4 {
            return false;
        }
        if alike(exchange, rest, s) {
            return true;
        }
        rest = after(rest, attribute_size(rest));
    }
    false
}

fn stands_wrong(exchange: u8, behindlifetype: bool, before: &[u8], s: &[u8]) -> bool
    ensures { result ≡ stands_wrong exchange behindlifetype before.now s.now }
{
    if is_duration(exchange, attribute_type(s)) {
        return !behindlifetype;
    }
    behindlifetype | repeats(16, exchange, before, s)
}

fn attribute_code(
    exchange: u8,
    behindlifetype: bool,
    before: &[u8],
    s: &[u8],
) -> Result<(), Refusal>
    ensures { coded result ≡ attribute_code exchange behindlifetype before.now s.now }
{
    if out_of_bounds(s) {
        return Err(Refusal::BadProposalSyntax);
    }
    if stands_wrong(exchange, behindlifetype, before, s) {
        return Err(Refusal::BadProposalSyntax);
    }
    if fixed_wrong(exchange, s) {
        return Err(Refusal::AttributesNotSupported);
    }
    if duration_wrong(exchange, s) {
        Err(Refusal::AttributesNotSupported)
    } else {
        Ok(())
    }
}

// 0 where a transform's attributes are lawful in the exchange, else the refusal.
pub fn attributes_code(exchange: u8, s: &[u8]) -> Result<(), Refusal>
    ensures { coded result ≡ attributes_code exchange s.now }
{
    let mut left: u8 = 16;
    let mut at: usize = 0;
    let mut behindlifetype = false;
    // An attribute is judged by what lies before it too, so a place goes through the bytes and not a part of them.
    while at < s.len() {
        if left == 0 {
            return Err(Refusal::BadProposalSyntax);
        }
        let here = after(s, at);
        attribute_code(exchange, behindlifetype, front(s, at), here)?;
        behindlifetype = is_life_type(exchange, attribute_type(here));
        at += attribute_size(here);
        left -= 1;
    }
    if behindlifetype {
        Err(Refusal::BadProposalSyntax)
    } else {
        Ok(())
    }
}
