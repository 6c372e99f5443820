// The policy book: a count, main lines, a count, quick lines. Every function takes any bytes.
#![tactic(auto)]

ghost use Rattle.std.specs.Prelude.{◌≡◌};
ghost use Rattle.policy_book.specs.Book.{main_line_lawful, quick_line_lawful, main_lines_lawful, quick_lines_lawful, book_in_front, book_told, book_read};

use policy_lines::{
    book_size, main_seconds, quick_count, quick_mode, quick_protocols, quick_seconds,
};
use refusal::Refusal;
use wire_read::byte;

// What a lawful book is: how many lines of each kind it has.
#[derive(Clone, Copy, Debug, PartialEq, Eq)]
pub struct Book {
    pub main: u8,
    pub quick: u8,
}

fn main_line_lawful(i: u8, book: &[u8]) -> bool
    ensures { result ≡ main_line_lawful i book.now }
{
    let seconds = main_seconds(i, book);
    (1 <= seconds) & (seconds <= 86400)
}

fn quick_line_lawful(i: u8, book: &[u8]) -> bool
    ensures { result ≡ quick_line_lawful i book.now }
{
    let protocols = quick_protocols(i, book);
    let mode = quick_mode(i, book);
    let seconds = quick_seconds(i, book);
    (1 <= protocols)
        & (protocols <= 2)
        & (1 <= mode)
        & (mode <= 4)
        & (1 <= seconds)
        & (seconds <= 3600)
}

fn main_lines_lawful(n: u8, book: &[u8]) -> bool
    ensures { result ≡ main_lines_lawful n book.now }
{
    let mut lawful = true;
    for i in 0..n {
        lawful = lawful & main_line_lawful(i, book);
    }
    lawful
}

fn quick_lines_lawful(n: u8, book: &[u8]) -> bool
    ensures { result ≡ quick_lines_lawful n book.now }
{
    let mut lawful = true;
    for i in 0..n {
        lawful = lawful & quick_line_lawful(i, book);
    }
    lawful
}

// Whether a lawful book stands at the front.
pub fn book_in_front(s: &[u8]) -> bool
    ensures { result ≡ book_in_front s.now }
{
    let main = byte(s, 0);
    let quick = quick_count(s);
    (main <= 8)
        & (quick <= 8)
        & (1 <= s.len())
        & (book_size(s) as usize <= s.len())
        & main_lines_lawful(main, s)
        & quick_lines_lawful(quick, s)
}

// Reads a book: its bytes and nothing else.
pub fn read_book(book: &[u8]) -> Result<Book, Refusal>
    ensures { book_told result ≡ book_read book.now }
{
    if book_in_front(book) & (book_size(book) as usize == book.len()) {
        Ok(Book {
            main: byte(book, 0),
            quick: quick_count(book),
        })
    } else {
        Err(Refusal::BookUnlawful)
    }
}
