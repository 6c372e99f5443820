ghost use Rattle.std.specs.Prelude.{◌≡◌};
ghost use Rattle.exports_words.specs.Given.{given};
ghost use Rattle.policy_book.specs.Book.{book_read, book_answer};
ghost use Rattle.policy_choice.specs.Choice.{choice};
ghost use Rattle.policy_reply.specs.Reply.{replied};
ghost use Rattle.exports_policy.specs.Choices.{chosen_answer};
ghost use Rattle.exports_policy.specs.Replies.{reply_given};

// Reads a book: how many main lines it has, and how many quick lines.
#[unsafe(no_mangle)]
pub extern "C" fn tallowbrim_book(book: &[u8], out: &mut [u64; 2]) -> u32
    ensures { given 2 (book_answer (book_read book.now)) out.old ≡ (result, out.new) }
{
    exports_policy::tallowbrim_book(book, out)
}

// What a book chooses of a message: the set, the line, how many transforms, the first, the second.
#[unsafe(no_mangle)]
pub extern "C" fn tallowbrim_choose(book: &[u8], m: &[u8], out: &mut [u64; 5]) -> u32
    ensures { given 5 (chosen_answer (choice book.now m.now)) out.old ≡ (result, out.new) }
{
    exports_policy::tallowbrim_choose(book, m, out)
}

// Chooses, and writes the reply at the buffer's start: how many bytes it has.
#[unsafe(no_mangle)]
pub extern "C" fn tallowbrim_reply(
    book: &[u8],
    m: &[u8],
    ah: u32,
    esp: u32,
    buffer: &mut [u8],
    out: &mut [u64; 1],
) -> u32
    ensures { reply_given (replied book.now m.now ah esp buffer.old) out.old ≡ ((result, out.new), buffer.new) }
{
    exports_policy::tallowbrim_reply(book, m, ah, esp, buffer, out)
}
