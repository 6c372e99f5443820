// `why BOOK BYTES`: of each set that a message offers and each line of the book, that it suits or at what it fails.
use bench_words::say::append;
use bench_words::{hex, say, words};
use policy_cause::{Cause, PairCause, pair_cause};
use policy_choice::choose::{line_count, sa_body};
use policy_lines::LineNumber;
use policy_why::{Places, Why, cause_at, offered};
use sa_fields::{proposal_number, protocol, transform_count, transform_number};
use sa_items::{proposal, proposal_count, transform};
use sa_sets::{set, set_count};
use wire_read::{after, front};

pub(crate) fn answer(line: &[u8], bytes: &mut [u8], out: &mut [u8], said: usize) -> Option<usize> {
    let (middle, end) = hex::decode_two(words::nth(line, 1), words::nth(line, 2), bytes)?;
    let both = front(bytes, end);
    Some(reasons(front(both, middle), after(both, middle), out, said))
}

fn reasons(book: &[u8], m: &[u8], out: &mut [u8], said: usize) -> usize {
    match offered(book, m) {
        Err(refusal) => say::refused(out, said, refusal.number()),
        Ok(offer) => {
            let said = append(out, said, b"why");
            sets(offer.exchange, book, m, out, said)
        }
    }
}

fn sets(exchange: u8, book: &[u8], m: &[u8], out: &mut [u8], said: usize) -> usize {
    let first = Places {
        set: 0,
        line: 0,
        proposal: 0,
        transform: 0,
    };
    let mut said = said;
    for set in 0..set_count(sa_body(m)) {
        said = lines(exchange, book, m, Places { set, ..first }, out, said);
    }
    said
}

fn lines(exchange: u8, book: &[u8], m: &[u8], at: Places, out: &mut [u8], said: usize) -> usize {
    let mut said = said;
    for line in 0..line_count(exchange, book) {
        let at = Places { line, ..at };
        said = pair(exchange, LineNumber(line + 1), book, m, at, out, said);
    }
    said
}

// Puts ` set S line L` and what is said of the two.
fn pair(
    exchange: u8,
    line: LineNumber,
    book: &[u8],
    m: &[u8],
    at: Places,
    out: &mut [u8],
    said: usize,
) -> usize {
    let s = set(at.set, sa_body(m));
    let number = proposal_number(proposal(0, s));
    let said = labelled(b" set", number.0 as u64, out, said);
    let said = labelled(b" line", line.0 as u64, out, said);
    match pair_cause(exchange, line, book, s) {
        None => append(out, said, b" suits"),
        Some(PairCause::Protocols) => append(out, said, b" protocols"),
        Some(PairCause::Transforms) => proposals(book, m, s, at, out, said),
    }
}

fn proposals(book: &[u8], m: &[u8], s: &[u8], at: Places, out: &mut [u8], said: usize) -> usize {
    let mut said = said;
    for k in 0..proposal_count(s) {
        let at = Places { proposal: k, ..at };
        said = transforms(book, m, proposal(k, s), at, out, said);
    }
    said
}

fn transforms(book: &[u8], m: &[u8], p: &[u8], at: Places, out: &mut [u8], said: usize) -> usize {
    let mut said = said;
    for k in 0..transform_count(p) {
        said = transform_at(book, m, p, Places { transform: k, ..at }, out, said);
    }
    said
}

// Puts ` protocol P transform T` and the transform's cause. Every place that is asked is there, and the set's protocols are
// the line's: ` none` would show that one of these fails.
fn transform_at(book: &[u8], m: &[u8], p: &[u8], at: Places, out: &mut [u8], said: usize) -> usize {
    let number = transform_number(transform(at.transform, p));
    let said = labelled(b" protocol", protocol(p) as u64, out, said);
    let said = labelled(b" transform", number.0 as u64, out, said);
    match cause_at(book, m, at) {
        Ok(Why::Transform(None)) => append(out, said, b" suits"),
        Ok(Why::Transform(Some(told))) => cause(told, out, said),
        _ => append(out, said, b" none"),
    }
}

fn cause(told: Cause, out: &mut [u8], said: usize) -> usize {
    match told {
        Cause::Id {
            found: _,
            wanted: _,
        } => append(out, said, b" id"),
        Cause::Missing(attributetype) => labelled(b" missing", attributetype as u64, out, said),
        Cause::Value {
            attributetype,
            found: _,
            wanted: _,
        } => labelled(b" value", attributetype as u64, out, said),
        Cause::Surplus {
            attributetype,
            found: _,
        } => labelled(b" surplus", attributetype as u64, out, said),
        Cause::Seconds {
            found: _,
            longest: _,
        } => append(out, said, b" seconds"),
        Cause::Kilobytes => append(out, said, b" kilobytes"),
    }
}

// Puts a text, a space and a number.
fn labelled(text: &[u8], n: u64, out: &mut [u8], said: usize) -> usize {
    let said = append(out, said, text);
    say::number(out, said, n)
}
