// `frame ORIGINAL BYTES`: what is listed of a record of a capture with these bytes and that original length, with the table of SA
// entries.
use bench_words::{hex, number, words};
use capture_record::{handed_in, list_record};
use capture_words::what;
use sequence_table::table::Table;
use wire_read::front;

pub(crate) fn answer(
    line: &[u8],
    lives: &mut Table,
    bytes: &mut [u8],
    out: &mut [u8],
    said: usize,
) -> Option<usize> {
    let original = number::decimal(words::nth(line, 1), u32::MAX)?;
    let end = hex::decode(words::nth(line, 2), bytes, 0)?;
    let record = front(bytes, end);
    let listed = list_record(lives, original, record);
    Some(what(out, said, listed, handed_in(original, record)))
}
