// `der BYTES`: whether the bytes are one DER element, and whether it is a name.
use bench_words::say::append;
use bench_words::{hex, words};
use wire_read::front;

pub(crate) fn answer(line: &[u8], bytes: &mut [u8], out: &mut [u8], said: usize) -> Option<usize> {
    let end = hex::decode(words::nth(line, 1), bytes, 0)?;
    let body = front(bytes, end);
    Some(if der::is_name(body) {
        append(out, said, b"name")
    } else if der::is_element(body) {
        append(out, said, b"element")
    } else {
        append(out, said, b"none")
    })
}
