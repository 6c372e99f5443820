// What other languages call to choose by a policy book: the book, the choice, the reply.
#![tactic(auto)]

ghost use Rattle.std.specs.Prelude.{◌≡◌};
ghost use Rattle.exports_words.specs.Given.{given};
ghost use Rattle.policy_book.specs.Book.{book_read, book_answer};
ghost use Rattle.policy_choice.specs.Choice.{choice};
ghost use Rattle.policy_reply.specs.Reply.{replied};
ghost use Rattle.exports_policy.specs.Choices.{chosen_answer};
ghost use Rattle.exports_policy.specs.Replies.{reply_given};

use policy_book::{Book, read_book};
use policy_choice::choose::choose;
use policy_choice::{Choice, Transforms};
use policy_reply::{OwnSpis, reply};

// Reads a book: how many main lines it has, and how many quick lines.
pub fn tallowbrim_book(book: &[u8], out: &mut [u64; 2]) -> u32
    ensures { given 2 (book_answer (book_read book.now)) out.old ≡ (result, out.new) }
{
    match read_book(book) {
        Err(refusal) => u32::from(refusal),
        Ok(Book { main, quick }) => {
            *out = [main as u64, quick as u64];
            0
        }
    }
}

// What a book chooses of a message: the set, the line, how many transforms, the first, the second.
pub fn tallowbrim_choose(book: &[u8], m: &[u8], out: &mut [u64; 5]) -> u32
    ensures { given 5 (chosen_answer (choice book.now m.now)) out.old ≡ (result, out.new) }
{
    match choose(book, m) {
        Err(refusal) => u32::from(refusal),
        Ok(
            Choice {
                set,
                line,
                transforms,
            },
        ) => {
            *out = match transforms {
                Transforms::One(t) => [set.0 as u64, line.0 as u64, 1, t.0 as u64, 0],
                Transforms::Two(t, u) => [set.0 as u64, line.0 as u64, 2, t.0 as u64, u.0 as u64],
            };
            0
        }
    }
}

// Chooses, and writes the reply at the buffer's start: how many bytes it has.
pub fn tallowbrim_reply(
    book: &[u8],
    m: &[u8],
    ah: u32,
    esp: u32,
    buffer: &mut [u8],
    out: &mut [u64; 1],
) -> u32
    ensures { reply_given (replied book.now m.now ah esp buffer.old) out.old ≡ ((result, out.new), buffer.new) }
{
    match reply(book, m, OwnSpis { ah, esp }, buffer) {
        Err(refusal) => u32::from(refusal),
        Ok(size) => {
            *out = [size as u64];
            0
        }
    }
}
