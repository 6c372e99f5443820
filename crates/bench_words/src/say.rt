// Filling a buffer: each function puts something at a place and gives back the place behind it.
ghost use Rattle.bench_words.specs.Say.{Said, decimal_text, number_text, hex_byte_text, hex_text, word_text, refused_text, bad_line_text, verdict_text, loss_text, transforms_text};
ghost use Rattle.sequence_record.specs.Verdict.{verdict_by};

use crate::hex::digit;
use policy_choice::Transforms;
use refusal::Numbered;
use sequence_record::{LossLine, Verdict};
use wire_write::put_bytes;

// Puts bytes. Those that do not fit are left out, and the buffer is full.
pub fn append(buffer: &mut [u8], at: usize, text: &[u8]) -> usize
    ensures { Said buffer.old at text.now result buffer.new }
{
    put_bytes(buffer, at, text);
    let room = buffer.len();
    room.min(at.saturating_add(text.len()))
}

// Puts a number in decimal.
pub fn digits(out: &mut [u8], said: usize, n: u64) -> usize
    ensures { Said out.old said (decimal_text n) result out.new }
{
    if n < 10 {
        append(out, said, &[digit(n as u8)])
    } else {
        let said = digits(out, said, n / 10);
        append(out, said, &[digit((n % 10) as u8)])
    }
}

// Puts a space and a number.
pub fn number(out: &mut [u8], said: usize, n: u64) -> usize
    ensures { Said out.old said (number_text n) result out.new }
{
    let said = append(out, said, b" ");
    digits(out, said, n)
}

// Puts bytes in hex.
pub fn bytes(out: &mut [u8], said: usize, bytes: &[u8]) -> usize
    ensures { Said out.old said (hex_text bytes.now) result out.new }
{
    let mut said = append(out, said, b"");
    for b in bytes {
        said = hex_byte(out, said, *b);
    }
    said
}

fn hex_byte(out: &mut [u8], said: usize, b: u8) -> usize
    ensures { Said out.old said (hex_byte_text b) result out.new }
{
    append(out, said, &[digit(b / 16), digit(b % 16)])
}

// Puts bytes as a word of a line: `-` for no bytes.
pub fn word(out: &mut [u8], said: usize, word: &[u8]) -> usize
    ensures { Said out.old said (word_text word.now) result out.new }
{
    if word.len() == 0 {
        append(out, said, b"-")
    } else {
        bytes(out, said, word)
    }
}

pub fn refused(out: &mut [u8], said: usize, n: u16) -> usize
    ensures { Said out.old said (refused_text n) result out.new }
{
    let said = append(out, said, b"refused");
    number(out, said, n as u64)
}

pub fn bad_line(out: &mut [u8], said: usize) -> usize
    ensures { Said out.old said bad_line_text result out.new }
{
    append(out, said, b"bad line")
}

pub fn verdict<R: Numbered>(out: &mut [u8], said: usize, told: Verdict<R>) -> usize
    ensures { Said out.old said (verdict_text (verdict_by R.numbered told)) result out.new }
{
    match told {
        Ok(rise) => {
            let said = append(out, said, b"accepted");
            number(out, said, rise)
        }
        Err(refusal) => refused(out, said, refusal.numbered()),
    }
}

pub fn loss_line(out: &mut [u8], said: usize, l: LossLine) -> usize
    ensures { Said out.old said (loss_text l) result out.new }
{
    let said = append(out, said, b"loss");
    let said = number(out, said, l.highest);
    let said = number(out, said, l.span);
    number(out, said, l.count as u64)
}

// Puts a space and a number for each transform.
pub fn transforms(out: &mut [u8], said: usize, transforms: Transforms) -> usize
    ensures { Said out.old said (transforms_text transforms) result out.new }
{
    match transforms {
        Transforms::One(t) => number(out, said, t.0 as u64),
        Transforms::Two(t, u) => {
            let said = number(out, said, t.0 as u64);
            number(out, said, u.0 as u64)
        }
    }
}
