// What other languages call for sequence numbers: a receive record in two words that they lend, the plain list, and the table of SA
// entries.
#![tactic(auto)]

ghost use Rattle.std.specs.Prelude.{◌≡◌};
ghost use Rattle.exports_words.specs.Given.{given};
ghost use Rattle.sequence_record.specs.Receive.{judged, loss_line, verdict_answer};
ghost use Rattle.sequence_record.specs.Verdict.{verdict_told};
ghost use Rattle.sequence_plain.specs.Plain.{plain_step, plain_loss};
ghost use Rattle.sequence_table.specs.Table.{added, removed, packet, next_to_send, loss, outcome_answer, counted_answer};
ghost use Rattle.sequence_table.specs.Outcome.{outcome_told};
ghost use Rattle.sequence_table.specs.Counted.{Line};
ghost use Rattle.exports_sequence.specs.Records.{receive_of, stepped, plain_given, line_words, key_of, outcome_given, verdict_given, sending_given};

use refusal::Refusal;
use sequence_plain::PlainList;
use sequence_record::{Judged, LossLine, Receive, Verdict, loss_line, step_lent};
use sequence_table::table;
use sequence_table::table::{Key, Table};

fn receive_of(words: &[u64; 2]) -> Receive
    ensures { result ≡ receive_of words.now }
{
    Receive {
        highest: words[0],
        window: words[1],
    }
}

fn give_verdict(verdict: Verdict, out: &mut [u64; 1]) -> u32
    ensures { given 1 (verdict_answer (verdict_told verdict)) out.old ≡ (result, out.new) }
{
    match verdict {
        Ok(rise) => {
            *out = [rise];
            0
        }
        Err(refusal) => u32::from(refusal),
    }
}

fn outcome_number(outcome: Result<(), Refusal>) -> u32
    ensures { result ≡ (outcome_answer (outcome_told outcome)).number }
{
    match outcome {
        Ok(()) => 0,
        Err(refusal) => u32::from(refusal),
    }
}

fn key_of(destination: u32, protocol: u8, spi: u32) -> Key
    ensures { result ≡ key_of destination protocol spi }
{
    Key {
        destination,
        protocol,
        spi,
    }
}

fn line_words(line: LossLine) -> [u64; 3]
    ensures { result ≡ line_words line }
{
    [line.highest, line.span, line.count as u64]
}

// A packet's number arrives at a lent record; `out` is for the rise.
pub fn tallowbrim_step(
    receive: &mut [u64; 2],
    number: u32,
    integrity: bool,
    out: &mut [u64; 1],
) -> u32
    ensures { stepped (judged (receive_of receive.old) number integrity) out.old ≡ ((result, out.new), receive.new) }
{
    let Judged {
        receive: after,
        verdict,
    } = step_lent(receive_of(receive), number, integrity);
    *receive = [after.highest, after.window];
    give_verdict(verdict, out)
}

// The loss line of a lent record.
pub fn tallowbrim_loss_line(receive: &[u64; 2], out: &mut [u64; 3]) -> u32
    ensures { given 3 (counted_answer (Line (loss_line (receive_of receive.now)))) out.old ≡ (result, out.new) }
{
    let line = loss_line(receive_of(receive));
    *out = line_words(line);
    0
}

// A packet's number arrives at a plain list; `out` is for the rise.
pub fn tallowbrim_plain_step(
    list: &mut PlainList,
    number: u32,
    integrity: bool,
    out: &mut [u64; 1],
) -> u32
    ensures { plain_given (plain_step list.old number integrity) out.old ≡ ((result, out.new), list.new) }
{
    let verdict = sequence_plain::step(list, number, integrity);
    give_verdict(verdict, out)
}

// The loss line of a plain list.
pub fn tallowbrim_plain_loss_line(list: &PlainList, out: &mut [u64; 3]) -> u32
    ensures { given 3 (counted_answer (Line (plain_loss list.now))) out.old ≡ (result, out.new) }
{
    let line = sequence_plain::loss_line(list);
    *out = line_words(line);
    0
}

// A life begins.
pub fn tallowbrim_add(table: &mut Table, destination: u32, protocol: u8, spi: u32) -> u32
    ensures { outcome_given (added table.old (key_of destination protocol spi)) ≡ (result, table.new) }
{
    let outcome = table::add(table, key_of(destination, protocol, spi));
    outcome_number(outcome)
}

// A life ends.
pub fn tallowbrim_remove(table: &mut Table, destination: u32, protocol: u8, spi: u32) -> u32
    ensures { outcome_given (removed table.old (key_of destination protocol spi)) ≡ (result, table.new) }
{
    let outcome = table::remove(table, key_of(destination, protocol, spi));
    outcome_number(outcome)
}

// A packet to a destination; integrity is what the caller says of it, and `out` is for the rise.
pub fn tallowbrim_packet(
    table: &mut Table,
    destination: u32,
    protocol: u8,
    integrity: bool,
    s: &[u8],
    out: &mut [u64; 1],
) -> u32
    ensures { verdict_given (packet table.old destination protocol integrity s.now) out.old ≡ ((result, out.new), table.new) }
{
    let verdict = table::packet(table, destination, protocol, integrity, s);
    give_verdict(verdict, out)
}

// The next number for a packet that is sent.
pub fn tallowbrim_send(
    table: &mut Table,
    destination: u32,
    protocol: u8,
    spi: u32,
    out: &mut [u64; 1],
) -> u32
    ensures { sending_given (next_to_send table.old (key_of destination protocol spi)) out.old ≡ ((result, out.new), table.new) }
{
    let sending = table::send(table, key_of(destination, protocol, spi));
    match sending {
        Ok(number) => {
            *out = [number as u64];
            0
        }
        Err(refusal) => u32::from(refusal),
    }
}

// The loss line of a life.
pub fn tallowbrim_loss(
    table: &Table,
    destination: u32,
    protocol: u8,
    spi: u32,
    out: &mut [u64; 3],
) -> u32
    ensures { given 3 (counted_answer (loss table.now (key_of destination protocol spi))) out.old ≡ (result, out.new) }
{
    let counted = table::loss(table, key_of(destination, protocol, spi));
    match counted {
        Ok(line) => {
            *out = line_words(line);
            0
        }
        Err(refusal) => u32::from(refusal),
    }
}
