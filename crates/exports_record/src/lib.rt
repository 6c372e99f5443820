// What other languages call to list a record of a capture, its packets judged by a table that they lend.
#![tactic(auto)]

ghost use Rattle.std.specs.Prelude.{◌≡◌, [], ◌∷◌};
ghost use Rattle.exports_words.specs.Given.{words};
ghost use Rattle.sequence_record.specs.Verdict.{verdict_told};
ghost use Rattle.capture_frame.specs.Frame.{address_values};
ghost use Rattle.capture_record.specs.Listed.{ShortPacket, Packet, listed_told};
ghost use Rattle.capture_record.specs.Listing.{listed, verdict_values, listed_answer};
ghost use Rattle.exports_record.specs.Listings.{listed_given};

use capture_frame::Addresses;
use capture_record::{Listed, list_record};
use sequence_record::Verdict;
use sequence_table::table::Table;

// What a record with addresses is, and two values behind them.
fn addressed(what: u64, addresses: Addresses, first: u64, second: u64) -> [u64; 8]
    ensures { result ≡ what ∷ address_values addresses (first ∷ second ∷ 0 ∷ 0 ∷ 0 ∷ []) }
{
    [
        what,
        addresses.source as u64,
        addresses.destination as u64,
        first,
        second,
        0,
        0,
        0,
    ]
}

fn verdict_words(verdict: Verdict) -> [u64; 2]
    ensures { result ≡ words 2 (verdict_values (verdict_told verdict)) }
{
    match verdict {
        Ok(rise) => [0, rise],
        Err(refusal) => [refusal.number() as u64, 0],
    }
}

fn short_packet(addresses: Addresses, protocol: u8, verdict: Verdict) -> [u64; 8]
    ensures { result ≡ words 8 (listed_answer (ShortPacket addresses protocol (verdict_told verdict))).values }
{
    let v = verdict_words(verdict);
    [
        10,
        addresses.source as u64,
        addresses.destination as u64,
        protocol as u64,
        v[0],
        v[1],
        0,
        0,
    ]
}

fn packet(addresses: Addresses, protocol: u8, spi: u32, number: u32, verdict: Verdict) -> [u64; 8]
    ensures { result ≡ words 8 (listed_answer (Packet addresses protocol spi number (verdict_told verdict))).values }
{
    let v = verdict_words(verdict);
    [
        11,
        addresses.source as u64,
        addresses.destination as u64,
        protocol as u64,
        spi as u64,
        number as u64,
        v[0],
        v[1],
    ]
}

fn listed_words(listed: Listed) -> [u64; 8]
    ensures { result ≡ words 8 (listed_answer (listed_told listed)).values }
{
    match listed {
        Listed::CutShort => [1, 0, 0, 0, 0, 0, 0, 0],
        Listed::NotIpv4 => [2, 0, 0, 0, 0, 0, 0, 0],
        Listed::Fragment(addresses) => addressed(3, addresses, 0, 0),
        Listed::OtherProtocol(addresses, protocol) => addressed(4, addresses, protocol as u64, 0),
        Listed::OtherPorts(addresses, ports) => addressed(
            5,
            addresses,
            ports.source as u64,
            ports.destination as u64,
        ),
        Listed::Keepalive(addresses) => addressed(6, addresses, 0, 0),
        Listed::Enciphered {
            addresses,
            exchange,
            id,
        } => addressed(7, addresses, exchange as u64, id as u64),
        Listed::Read {
            addresses,
            exchange,
            count,
        } => addressed(8, addresses, exchange as u64, count as u64),
        Listed::Refused(addresses, refusal) => addressed(9, addresses, refusal.number() as u64, 0),
        Listed::ShortPacket {
            addresses,
            protocol,
            verdict,
        } => short_packet(addresses, protocol, verdict),
        Listed::Packet {
            addresses,
            protocol,
            spi,
            number,
            verdict,
        } => packet(addresses, protocol, spi, number, verdict),
    }
}

// A record into a table: what is listed of it.
pub fn tallowbrim_record(table: &mut Table, original: u32, s: &[u8], out: &mut [u64; 8]) -> u32
    ensures { listed_given (listed table.old original s.now) out.old ≡ ((result, out.new), table.new) }
{
    *out = listed_words(list_record(table, original, s));
    0
}
