// Lists every record of a capture file that comes on standard input: one line each, and with a policy book, whose path is the
// first argument, a second line for a message with an offer. A file of any length goes through two buffers that main makes once
// and lends to everything below, as it does the table of SA entries.
#![tactic(auto)]

mod advice;
mod book;
mod input;
mod output;
mod progress;
mod record;
mod told;

use advice::Advice;
use book::Unusable;
use capture_buffer::Held;
use capture_header::{Order, file_header, header_cause};
use input::Input;
use output::Output;
use progress::Progress;
use sequence_table::table::{ROOMS, Table, WORDS};
use std::io::IsTerminal;
use std::process::ExitCode;
use std::rt::Runtime;

type Large = [u8; 65536];

// Which numbers of refusals the listing has; none is above 8201.
type Occurred = [bool; 8202];

// What goes from record to record. Here is the next record's number and the byte where its header begins.
#[derive(Drop)]
struct Listing<'a> {
    input: &'a mut Input,
    output: &'a mut Output,
    table: &'a mut Table,
    here: Place,
    advice: Advice,
    progress: Progress,
}

#[derive(Clone, Copy)]
struct Place {
    number: u64,
    at: u64,
}

// The status of a listing whose reader ends first is that of a program which the signal for that ends.
const LEFT: u8 = 141;

// Input and output are lent to the listing: put into it they would be copied, and lie on the stack twice.
fn main(rt: HostRuntime) -> ExitCode {
    let terminal = rt.stderr().is_terminal();
    let mut input = Input {
        buffer: [0; 65536],
        held: Held { from: 0, to: 0 },
        ended: false,
    };
    let mut output = Output {
        out: [0; 65536],
        said: 0,
        going: true,
        left: false,
        occurred: [false; 8202],
    };
    // The empty table.
    let mut table = [0; ROOMS * WORDS];
    let mut listing = Listing {
        input: &mut input,
        output: &mut output,
        table: &mut table,
        here: Place { number: 1, at: 24 },
        advice: Advice {
            snap: false,
            full: false,
            pppoe: false,
        },
        progress: progress::begun(&rt, terminal),
    };
    list(&rt, &mut listing);
    if output.left {
        return ExitCode::from(LEFT);
    }
    told::refusals(&rt, &output.occurred);
    ExitCode::SUCCESS
}

// Lists the whole file.
fn list(rt: &impl Runtime, listing: &mut Listing) {
    listing.input.hold(rt, listing.output, 24);
    header(rt, listing);
    listing.output.flush(rt);
}

// What the file begins with, and then the rest of it. A file that cannot be read to its end has no header to judge.
fn header(rt: &impl Runtime, listing: &mut Listing) {
    if !listing.output.going {
        return;
    }
    match file_header(listing.input.bytes()) {
        Err(refusal) => {
            listing.output.refused(rt, refusal);
            listing.output.flush(rt);
            if !listing.output.left {
                advice::header(rt, header_cause(listing.input.bytes()));
            }
        }
        Ok(order) => {
            listing.input.take(24);
            with_book(rt, order, listing)
        }
    }
}

// The book is read before the first record, and one that is unlawful ends the listing.
fn with_book(rt: &impl Runtime, order: Order, listing: &mut Listing) {
    let mut book = Vec::new(rt.alloc());
    match book::read(rt, &mut book) {
        Ok(()) => records(rt, order, &book, listing),
        Err(Unusable::Refused(refusal)) => listing.output.refused(rt, refusal),
        Err(Unusable::Unread) => {
            told::failed(rt, "cannot read the book");
            listing.output.going = false;
        }
    }
}

fn records(rt: &impl Runtime, order: Order, book: &[u8], listing: &mut Listing) {
    // A proved loop has to end: no file uses this number up.
    for _ in 0..u64::MAX {
        if !listing.output.going {
            break;
        }
        record::next(rt, order, book, listing);
    }
}
