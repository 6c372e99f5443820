// The lines on the record that is lent alone: `lent new`, `lent loss` and `lent NUMBER yes|no`.
use crate::shown;
use bench_words::say::append;
use bench_words::{say, words};
use sequence_record::{Judged, Receive, loss_line, new_receive, step_lent};

pub(crate) fn new_or_loss(
    line: &[u8],
    lent: &mut Receive,
    out: &mut [u8],
    said: usize,
) -> Option<usize> {
    match words::nth(line, 1) {
        b"new" => {
            *lent = new_receive();
            Some(append(out, said, b"done"))
        }
        b"loss" => Some(say::loss_line(out, said, loss_line(*lent))),
        _ => None,
    }
}

pub(crate) fn step(line: &[u8], lent: &mut Receive, out: &mut [u8], said: usize) -> Option<usize> {
    let (number, whole) = shown::read(line)?;
    let Judged { receive, verdict } = step_lent(*lent, number, whole);
    *lent = receive;
    Some(say::verdict(out, said, verdict))
}
