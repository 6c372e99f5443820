// A packet as the lines on one life alone show it, `lent NUMBER yes|no` and `plain NUMBER yes|no`: its number, and whether its integrity
// holds.
use bench_words::{integrity, number, words};

pub(crate) fn read(line: &[u8]) -> Option<(u32, bool)> {
    let number = number::decimal(words::nth(line, 1), u32::MAX)?;
    let whole = integrity::read(words::nth(line, 2))?;
    Some((number, whole))
}
