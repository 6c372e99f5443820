// `book BYTES` and `choose BOOK BYTES`: what a policy book holds, and what it chooses of a message.
use bench_words::say::append;
use bench_words::{hex, say, words};
use policy_book::Book;
use policy_choice::Choice;
use refusal::Refusal;
use wire_read::{after, front};

pub(crate) fn book(line: &[u8], bytes: &mut [u8], out: &mut [u8], said: usize) -> Option<usize> {
    let end = hex::decode(words::nth(line, 1), bytes, 0)?;
    Some(held(policy_book::read_book(front(bytes, end)), out, said))
}

fn held(read: Result<Book, Refusal>, out: &mut [u8], said: usize) -> usize {
    match read {
        Err(refusal) => say::refused(out, said, refusal.number()),
        Ok(Book { main, quick }) => {
            let said = append(out, said, b"book");
            let said = say::number(out, said, main as u64);
            say::number(out, said, quick as u64)
        }
    }
}

pub(crate) fn choose(line: &[u8], bytes: &mut [u8], out: &mut [u8], said: usize) -> Option<usize> {
    let (middle, end) = hex::decode_two(words::nth(line, 1), words::nth(line, 2), bytes)?;
    let both = front(bytes, end);
    let choice = policy_choice::choose::choose(front(both, middle), after(both, middle));
    Some(chosen(choice, out, said))
}

fn chosen(choice: Result<Choice, Refusal>, out: &mut [u8], said: usize) -> usize {
    match choice {
        Err(refusal) => say::refused(out, said, refusal.number()),
        Ok(
            Choice {
                set,
                line,
                transforms,
            },
        ) => {
            let said = append(out, said, b"chosen");
            let said = say::number(out, said, set.0 as u64);
            let said = say::number(out, said, line.0 as u64);
            say::transforms(out, said, transforms)
        }
    }
}
