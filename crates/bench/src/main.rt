// Reads lines from standard input and writes one line of answer to standard output for each, in order. What the lines are
// stands in verbs.rt and, for the quick mode ends, in bench_ends. Input of any length goes through four buffers that main
// makes once and lends to everything below, as it does the table of SA entries, the plain list and the kept buffers of the
// ends.
#![tactic(auto)]

mod captured;
mod choosing;
mod element;
mod identification;
mod input;
mod lawfulness;
mod lent;
mod lives;
mod output;
mod plain;
mod port;
mod reading;
mod reasons;
mod replying;
mod shown;
mod verbs;

use bench_ends::{Kept, Seats};
use input::Input;
use output::Output;
use sequence_plain::{MOST, PlainList};
use sequence_record::{Receive, new_receive};
use sequence_table::table::{ROOMS, Table, WORDS};
use std::io;
use std::io::{Read, Write};

type Large = [u8; 65536];

type Bytes = [u8; 32768];

// What goes from line to line: the table of SA entries, the plain list and the record of the lines that begin with `lent`; the
// quick mode ends and what they keep; and room for the bytes of a whole line of hex, which holds nothing from line to line.
#[derive(Drop)]
struct Held {
    table: Table,
    plain: PlainList,
    lent: Receive,
    ends: Seats,
    sent: Kept,
    got: Kept,
    bytes: Bytes,
}

fn main(rt: HostRuntime) {
    let mut input = Input {
        read: [0; 65536],
        taken: 0,
        filled: 0,
        line: [0; 65536],
        length: 0,
    };
    let mut output = Output {
        out: [0; 65536],
        said: 0,
    };
    // The empty table, the empty list, no ends, and nothing kept for them.
    let mut held = Held {
        table: [0; ROOMS * WORDS],
        plain: [0; 1 + MOST],
        lent: new_receive(),
        ends: bench_ends::absent(),
        sent: [0; 8192],
        got: [0; 8192],
        bytes: [0; 32768],
    };
    // Where the output cannot be written the program ends, and a line that was begun is dropped.
    let _ = run(
        &mut rt.stdin(),
        &mut rt.stdout(),
        &mut input,
        &mut output,
        &mut held,
    );
}

// Answers all of the input. What was said is written out before each read, and what is left of a line when the input ends is the
// last line.
fn run(
    reader: &mut impl Read,
    writer: &mut impl Write,
    input: &mut Input,
    output: &mut Output,
    held: &mut Held,
) -> io::Result<()> {
    // A proved loop has to end: no run uses this number up.
    for _ in 0..u64::MAX {
        if input.is_taken() {
            output.flush(writer)?;
            if input.fill(reader) == 0 {
                break;
            }
        }
        if input.take() {
            verbs::answer(input.line(), held, output);
            input.begin_line();
            output.make_room(writer)?;
        }
    }
    verbs::answer(input.line(), held, output);
    output.flush(writer)
}
