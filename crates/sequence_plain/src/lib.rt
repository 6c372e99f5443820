// The plain window: the accepted numbers of one life as a list, which is looked through at every step. It answers as the window of
// sequence_record does up to 4,096 acceptances, and is there to be read and compared with: the window is the fast one.
#![tactic(auto)]

ghost use Rattle.std.specs.Prelude.{◌≡◌, take, drop};
ghost use Rattle.sequence_record.specs.Receive.{behind, verdict_answer};
ghost use Rattle.sequence_record.specs.Verdict.{verdict_told};
ghost use Rattle.sequence_history.specs.History.{highest, member};
ghost use Rattle.sequence_plain.specs.Plain.{count_of, numbers_of, plain_step, plain_loss};

use refusal::Refusal;
use sequence_record::{LossLine, Verdict};

// How many numbers a list can have.
pub const MOST: usize = 4096;

// A count, and behind it so many numbers in the order of their acceptance; all zero is the list of a life that begins. Any words at all
// get an answer. Count and numbers are words of one array, since C lends them.
pub type PlainList = [u64; 1 + MOST];

// How many numbers the list has.
fn count_of(list: &PlainList) -> usize
    ensures { result ≡ count_of list.now }
{
    list[0].min(MOST as u64) as usize
}

// The numbers of the list, in the order of their acceptance.
fn numbers(list: &PlainList) -> &[u64]
    ensures { result.now ≡ take (count_of list.now) (drop 1 list.now) }
{
    &list[1..1 + count_of(list)]
}

// The highest number of the list, 0 where it has none.
fn highest_of(list: &PlainList) -> u64
    ensures { result ≡ highest (numbers_of list.now) }
{
    let mut highest: u64 = 0;
    for &number in numbers(list) {
        highest = highest.max(number);
    }
    highest
}

// Whether the number is in the list.
fn is_in(list: &PlainList, number: u64) -> bool
    ensures { result ≡ member number (numbers_of list.now) }
{
    // All are looked at: several at a time, as it is compiled. A search that ends at the first takes one after the other.
    let mut found = false;
    for &kept in numbers(list) {
        found = found | (kept == number);
    }
    found
}

// The window's own `behind` is not called: a mistake in it would be one in both engines.
fn behind(highest: u64, number: u32) -> bool
    ensures { result ≡ behind highest number }
{
    (number == 0) | (number as u64 + 64 <= highest)
}

// What a packet with this number does to the list; integrity is what the caller says of it.
pub fn step(list: &mut PlainList, number: u32, integrity: bool) -> Verdict
    ensures { plain_step list.old number integrity ≡ (verdict_answer (verdict_told result), list.new) }
{
    let highest = highest_of(list);
    let old = behind(highest, number);
    let again = is_in(list, number as u64);
    let count = count_of(list);
    if old {
        return Err(Refusal::BehindWindow);
    }
    if again {
        return Err(Refusal::AcceptedBefore);
    }
    if !integrity {
        return Err(Refusal::AuthenticationFailed);
    }
    if MOST <= count {
        return Err(Refusal::ListFull);
    }
    list[count + 1] = number as u64;
    list[0] = count as u64 + 1;
    Ok((number as u64).saturating_sub(highest))
}

// The highest number, how many of the last numbers are looked at, and how many of those are in the list.
pub fn loss_line(list: &PlainList) -> LossLine
    ensures { result ≡ plain_loss list.now }
{
    let highest = highest_of(list);
    let span = highest.min(64);
    let mut count = 0;
    for looked in 0..span {
        if is_in(list, highest - looked) {
            count += 1;
        }
    }
    LossLine {
        highest,
        span,
        count,
    }
}
