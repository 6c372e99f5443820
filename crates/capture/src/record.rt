// The lines of one record.
use crate::output::Output;
use crate::{Listing, Place, advice};
use capture_header::{Order, record_header};
use capture_record::{Listed, handed_in, list_record};
use capture_words::{choice, place, stamp, what};
use refusal::Refusal;
use std::rt::Runtime;
use wire_read::front;

// Lists the record at the front of what is left of the file; at its end there is none.
pub(crate) fn next(rt: &impl Runtime, order: Order, book: &[u8], listing: &mut Listing) {
    listing.input.hold(rt, listing.output, 16);
    let left = listing.input.bytes();
    if !listing.output.going | (left.len() == 0) {
        listing.output.going = false;
        return;
    }
    let here = listing.here;
    match record_header(order, left) {
        Ok(None) => {
            begin_line(here, listing.output);
            cut_short(rt, listing.output);
        }
        Err(refusal) => {
            listing.output.refused(rt, refusal);
            listing.output.flush(rt);
            if !listing.output.left {
                advice::long_record(rt, order, listing.input.bytes(), here);
            }
        }
        Ok(Some(header)) => {
            listing.input.take(16);
            listing
                .input
                .hold(rt, listing.output, header.captured as usize);
            // A read that failed ends the listing without a line for the record that it broke off.
            if listing.output.going {
                let output = &mut *listing.output;
                begin_line(here, output);
                output.said = stamp(
                    &mut output.out,
                    output.said,
                    header.seconds,
                    header.microseconds,
                );
                bytes(rt, book, header.captured, header.original, listing);
            }
        }
    }
}

fn begin_line(here: Place, output: &mut Output) {
    output.said = place(&mut output.out, output.said, here.number, here.at);
}

// The rest of a line whose record the file cuts short: the last.
fn cut_short(rt: &impl Runtime, output: &mut Output) {
    output.append(b" cut short");
    output.going = false;
    output.end_line(rt);
}

// What the bytes of a record are listed as.
fn bytes(rt: &impl Runtime, book: &[u8], captured: u16, original: u32, listing: &mut Listing) {
    let s = front(listing.input.bytes(), captured as usize);
    if s.len() < captured as usize {
        return cut_short(rt, listing.output);
    }
    let output = &mut *listing.output;
    let listed = list_record(listing.table, original, s);
    let m = handed_in(original, s);
    let refused = refusal(listed);
    if let Some(refusal) = refused {
        output.occurs(refusal);
    }
    output.append(b" ");
    output.said = what(&mut output.out, output.said, listed, m);
    output.end_line(rt);
    offer(rt, book, listed, m, output);
    let here = listing.here;
    listing
        .advice
        .record(rt, output, here, original, s, listed, refused);
    behind(rt, captured, listing);
}

// The refusal that is listed.
fn refusal(listed: Listed) -> Option<Refusal> {
    match listed {
        Listed::Refused(_, refusal) => Some(refusal),
        Listed::ShortPacket { verdict, .. } => verdict.err(),
        Listed::Packet { verdict, .. } => verdict.err(),
        _ => None,
    }
}

// With a book, the second line of a message that reads and has an SA payload. The message reads, so that a malformed payload (16) says that it has none.
fn offer(rt: &impl Runtime, book: &[u8], listed: Listed, m: &[u8], output: &mut Output) {
    let Listed::Read { .. } = listed else {
        return;
    };
    if book.len() == 0 {
        return;
    }
    let chosen = policy_choice::choose::choose(book, m);
    match chosen {
        Err(Refusal::PayloadMalformed) => return,
        Err(refusal) => output.occurs(refusal),
        Ok(_) => {}
    }
    output.append(b"  ");
    output.said = choice(&mut output.out, output.said, chosen);
    output.end_line(rt);
}

// Goes on behind the bytes of a record, and says how far that is, but nothing once the listing's reader has left. No file is so long
// that these numbers begin anew.
fn behind(rt: &impl Runtime, captured: u16, listing: &mut Listing) {
    listing.input.take(captured as usize);
    let here = Place {
        number: listing.here.number.wrapping_add(1),
        at: listing.here.at.wrapping_add(16 + captured as u64),
    };
    listing.here = here;
    if !listing.output.left {
        listing.progress.tell(rt, here.at);
    }
}
