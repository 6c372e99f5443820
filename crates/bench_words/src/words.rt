// The words of a line, which single spaces part. Spaces that are doubled, or stand at an end, make an empty word, which
// counts as a word and which nothing reads: neither a verb nor bytes are empty.
ghost use Rattle.std.specs.Prelude.{◌≡◌, ℕ, ◌≤◌, ◌<◌, min, length, get_or, ◌==◌};
ghost use Rattle.std.specs.List.{position};
ghost use Rattle.bench_words.specs.Words.{word_count, word_of};

use wire_read::{after, front};

// The place of the first such byte.
fn first(s: &[u8], b: u8) -> Option<usize>
    ensures { result ≡ position (λ x. x == b) s.now }
{
    s.iter().position(|x| *x == b)
}

// The place of the first such byte from a place on; the length where there is none.
pub fn find(s: &[u8], from: usize, b: u8) -> usize
    ensures within { result ≤ length s.now }
    ensures behind { min from (length s.now) ≤ result }
    ensures before { (k : ℕ) → k < result → from ≤ k → get_or s.now k 0 ≡ b → ⊥ }
    ensures found { result < length s.now → get_or s.now result 0 ≡ b }
{
    match first(after(s, from), b) {
        Some(n) => from + n,
        None => s.len(),
    }
}

// How many words a line has.
pub fn count(line: &[u8]) -> usize
    ensures { result ≡ word_count line.now }
{
    line.iter().filter(|b| **b == b' ').count() + 1
}

// Word k of a line, the first being 0; empty where the line has fewer.
pub fn nth(line: &[u8], k: usize) -> &[u8]
    ensures { result.now ≡ word_of line.now k }
{
    let mut at = 0;
    for _ in 0..k {
        at = find(line, at, b' ') + 1;
    }
    let rest = after(line, at);
    front(rest, find(rest, 0, b' '))
}
