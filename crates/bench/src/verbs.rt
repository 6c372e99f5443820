// The table of verbs: the number of words on a line, the verb, and the room that answers it. The verbs of the quick mode
// ends are bench_ends's.
use crate::output::Output;
use crate::{
    Held, captured, choosing, element, identification, lawfulness, lent, lives, plain, port,
    reading, reasons, replying,
};
use bench_words::say::append;
use bench_words::{say, words};

// A line is at most so many bytes long, without its line end.
const LONGEST: usize = 65535;

// Answers a line, with a line end. An empty line and one that begins with # get no answer.
pub(crate) fn answer(line: &[u8], held: &mut Held, output: &mut Output) {
    if line.len() == 0 || line[0] == b'#' {
        return;
    }
    let said = match told(line, held, &mut output.out, output.said) {
        Some(said) => said,
        None => say::bad_line(&mut output.out, output.said),
    };
    output.said = append(&mut output.out, said, b"\n");
}

// A line goes to the ends first, and to the other verbs where it is none of theirs. A bad line says nothing.
fn told(line: &[u8], held: &mut Held, out: &mut [u8], said: usize) -> Option<usize> {
    if LONGEST < line.len() {
        return None;
    }
    let ends = held.ends;
    let answered = bench_ends::answer(
        line,
        &mut held.sent,
        &mut held.got,
        &mut held.bytes,
        out,
        said,
        ends,
    );
    if answered.known {
        let ends = answered.ends;
        held.ends = ends;
        Some(answered.said)
    } else {
        by_verb(line, held, out, said)
    }
}

fn by_verb(line: &[u8], held: &mut Held, out: &mut [u8], said: usize) -> Option<usize> {
    let bytes = &mut held.bytes;
    let table = &mut held.table;
    let list = &mut held.plain;
    let lent = &mut held.lent;
    match (words::count(line), words::nth(line, 0)) {
        (2, b"lent") => lent::new_or_loss(line, lent, out, said),
        (3, b"lent") => lent::step(line, lent, out, said),
        (2, b"plain") => plain::new_or_loss(line, list, out, said),
        (3, b"plain") => plain::step(line, list, out, said),
        (2, b"port") => port::answer(line, bytes, out, said),
        (2, b"der") => element::answer(line, bytes, out, said),
        (2, b"read") => reading::answer(line, bytes, out, said),
        (3, b"identity") => identification::answer(line, bytes, out, said),
        (2, b"book") => choosing::book(line, bytes, out, said),
        (3, b"choose") => choosing::choose(line, bytes, out, said),
        (3, b"why") => reasons::answer(line, bytes, out, said),
        (3 | 4, b"lawful") => lawfulness::answer(line, bytes, out, said),
        (6, b"reply") => replying::answer(line, bytes, out, said),
        (4, b"add") => lives::add(line, table, out, said),
        (4, b"remove") => lives::remove(line, table, out, said),
        (5, b"packet") => lives::packet(line, table, bytes, out, said),
        (4, b"send") => lives::send(line, table, out, said),
        (4, b"loss") => lives::loss(line, table, out, said),
        (3, b"frame") => captured::answer(line, table, bytes, out, said),
        _ => None,
    }
}
