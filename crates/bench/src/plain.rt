// The lines on the plain list: `plain new`, `plain loss` and `plain NUMBER yes|no`.
use crate::shown;
use bench_words::say::append;
use bench_words::{say, words};
use sequence_plain::{MOST, PlainList, loss_line};

pub(crate) fn new_or_loss(
    line: &[u8],
    list: &mut PlainList,
    out: &mut [u8],
    said: usize,
) -> Option<usize> {
    match words::nth(line, 1) {
        b"new" => {
            *list = [0; 1 + MOST];
            Some(append(out, said, b"done"))
        }
        b"loss" => Some(say::loss_line(out, said, loss_line(list))),
        _ => None,
    }
}

pub(crate) fn step(
    line: &[u8],
    list: &mut PlainList,
    out: &mut [u8],
    said: usize,
) -> Option<usize> {
    let (number, whole) = shown::read(line)?;
    Some(say::verdict(out, said, sequence_plain::step(list, number, whole)))
}
