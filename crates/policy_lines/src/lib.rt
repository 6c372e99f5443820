// The lines of a policy book: how many there are, where they lie and what they say. Every function takes any bytes.
#![tactic(auto)]

ghost use Rattle.std.specs.Prelude.{◌≡◌};
ghost use Rattle.policy_lines.specs.Lines.{place, quick_start, quick_count, book_size, main_seconds, quick_at, quick_protocols, quick_mode, quick_seconds};

use wire_read::{be32, byte};

// Lines are counted from 1, among the main lines or among the quick lines; 0 is no line.
#[derive(Clone, Copy, Debug, PartialEq, Eq)]
pub struct LineNumber(pub u8);

impl LineNumber {
    // The place of the line, counted from 0.
    pub fn place(self) -> u8
        ensures { result ≡ place self }
    {
        self.0.saturating_sub(1)
    }
}

fn quick_start(book: &[u8]) -> u16
    ensures { result ≡ quick_start book.now }
{
    1 + 4 * byte(book, 0) as u16
}

// How many quick lines the book has.
pub fn quick_count(book: &[u8]) -> u8
    ensures { result ≡ quick_count book.now }
{
    byte(book, quick_start(book) as usize)
}

// How many bytes the book takes.
pub fn book_size(book: &[u8]) -> u32
    ensures { result ≡ book_size book.now }
{
    quick_start(book) as u32 + 1 + 6 * quick_count(book) as u32
}

// The longest seconds of main line i, counted from 0.
pub fn main_seconds(i: u8, book: &[u8]) -> u32
    ensures { result ≡ main_seconds i book.now }
{
    be32(book, 1 + 4 * i as usize)
}

fn quick_at(i: u8, book: &[u8]) -> u32
    ensures { result ≡ quick_at i book.now }
{
    quick_start(book) as u32 + 1 + 6 * i as u32
}

// The protocols, the mode and the longest seconds of quick line i, counted from 0.
pub fn quick_protocols(i: u8, book: &[u8]) -> u8
    ensures { result ≡ quick_protocols i book.now }
{
    byte(book, quick_at(i, book) as usize)
}

pub fn quick_mode(i: u8, book: &[u8]) -> u8
    ensures { result ≡ quick_mode i book.now }
{
    byte(book, quick_at(i, book) as usize + 1)
}

pub fn quick_seconds(i: u8, book: &[u8]) -> u32
    ensures { result ≡ quick_seconds i book.now }
{
    be32(book, quick_at(i, book) as usize + 2)
}
