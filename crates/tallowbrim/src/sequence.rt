ghost use Rattle.std.specs.Prelude.{◌≡◌};
ghost use Rattle.exports_words.specs.Given.{given};
ghost use Rattle.sequence_record.specs.Receive.{judged, loss_line};
ghost use Rattle.sequence_plain.specs.Plain.{plain_step, plain_loss};
ghost use Rattle.sequence_table.specs.Table.{added, removed, packet, next_to_send, loss, counted_answer};
ghost use Rattle.sequence_table.specs.Counted.{Line};
ghost use Rattle.exports_sequence.specs.Records.{receive_of, stepped, plain_given, key_of, outcome_given, verdict_given, sending_given};

use sequence_plain::PlainList;
use sequence_table::table::Table;

// A packet's number arrives at a lent record; `out` is for the rise.
#[unsafe(no_mangle)]
pub extern "C" fn tallowbrim_step(
    receive: &mut [u64; 2],
    number: u32,
    integrity: bool,
    out: &mut [u64; 1],
) -> u32
    ensures { stepped (judged (receive_of receive.old) number integrity) out.old ≡ ((result, out.new), receive.new) }
{
    exports_sequence::tallowbrim_step(receive, number, integrity, out)
}

// The loss line of a lent record.
#[unsafe(no_mangle)]
pub extern "C" fn tallowbrim_loss_line(receive: &[u64; 2], out: &mut [u64; 3]) -> u32
    ensures { given 3 (counted_answer (Line (loss_line (receive_of receive.now)))) out.old ≡ (result, out.new) }
{
    exports_sequence::tallowbrim_loss_line(receive, out)
}

// A packet's number arrives at a plain list; `out` is for the rise.
#[unsafe(no_mangle)]
pub extern "C" fn tallowbrim_plain_step(
    list: &mut PlainList,
    number: u32,
    integrity: bool,
    out: &mut [u64; 1],
) -> u32
    ensures { plain_given (plain_step list.old number integrity) out.old ≡ ((result, out.new), list.new) }
{
    exports_sequence::tallowbrim_plain_step(list, number, integrity, out)
}

// The loss line of a plain list.
#[unsafe(no_mangle)]
pub extern "C" fn tallowbrim_plain_loss_line(list: &PlainList, out: &mut [u64; 3]) -> u32
    ensures { given 3 (counted_answer (Line (plain_loss list.now))) out.old ≡ (result, out.new) }
{
    exports_sequence::tallowbrim_plain_loss_line(list, out)
}

// A life begins.
#[unsafe(no_mangle)]
pub extern "C" fn tallowbrim_add(table: &mut Table, destination: u32, protocol: u8, spi: u32) -> u32
    ensures { outcome_given (added table.old (key_of destination protocol spi)) ≡ (result, table.new) }
{
    exports_sequence::tallowbrim_add(table, destination, protocol, spi)
}

// A life ends.
#[unsafe(no_mangle)]
pub extern "C" fn tallowbrim_remove(
    table: &mut Table,
    destination: u32,
    protocol: u8,
    spi: u32,
) -> u32
    ensures { outcome_given (removed table.old (key_of destination protocol spi)) ≡ (result, table.new) }
{
    exports_sequence::tallowbrim_remove(table, destination, protocol, spi)
}

// A packet to a destination; integrity is what the caller says of it, and `out` is for the rise.
#[unsafe(no_mangle)]
pub extern "C" fn tallowbrim_packet(
    table: &mut Table,
    destination: u32,
    protocol: u8,
    integrity: bool,
    s: &[u8],
    out: &mut [u64; 1],
) -> u32
    ensures { verdict_given (packet table.old destination protocol integrity s.now) out.old ≡ ((result, out.new), table.new) }
{
    exports_sequence::tallowbrim_packet(table, destination, protocol, integrity, s, out)
}

// The next number for a packet that is sent.
#[unsafe(no_mangle)]
pub extern "C" fn tallowbrim_send(
    table: &mut Table,
    destination: u32,
    protocol: u8,
    spi: u32,
    out: &mut [u64; 1],
) -> u32
    ensures { sending_given (next_to_send table.old (key_of destination protocol spi)) out.old ≡ ((result, out.new), table.new) }
{
    exports_sequence::tallowbrim_send(table, destination, protocol, spi, out)
}

// The loss line of a life.
#[unsafe(no_mangle)]
pub extern "C" fn tallowbrim_loss(
    table: &Table,
    destination: u32,
    protocol: u8,
    spi: u32,
    out: &mut [u64; 3],
) -> u32
    ensures { given 3 (counted_answer (loss table.now (key_of destination protocol spi))) out.old ≡ (result, out.new) }
{
    exports_sequence::tallowbrim_loss(table, destination, protocol, spi, out)
}
