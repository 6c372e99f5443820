// What is printed of a record of a capture. Each function puts its text at a place of a buffer and gives back the place behind
// it; what does not fit is left out.
#![tactic(auto)]

mod number;

ghost use Rattle.bench_words.specs.Say.{Said};
ghost use Rattle.sequence_record.specs.Verdict.{verdict_by};
ghost use Rattle.policy_choice.specs.Choice.{choice_by};
ghost use Rattle.capture_record.specs.Listed.{listed_by};
ghost use Rattle.capture_words.specs.Texts.{place_text, stamp_text, address_text, addresses_text, addressed_text, protocol_text, ports_text, enciphered_text, payload_text, payloads_text, read_text, message_refused_text, named_text, short_packet_text, spi_text, packet_text, what_text, set_text, chosen_text, choice_text};

use crate::number::{counted, digits, hex_digits, marked, six_digits};
use bench_words::say;
use bench_words::say::append;
use capture_frame::{Addresses, Ports};
use capture_record::Listed;
use message_chain::{Payload, payload_at};
use policy_choice::{Choice, Transforms};
use policy_lines::LineNumber;
use refusal::Numbered;
use sa_fields::ProposalNumber;
use sequence_record::Verdict;

// `N at PLACE`: a line's number, and where in the file its record begins.
pub fn place(out: &mut [u8], said: usize, number: u64, place: u64) -> usize
    ensures { Said out.old said (place_text number place) result out.new }
{
    let said = digits(out, said, number);
    counted(out, said, b" at", place)
}

// ` SECONDS.MICROSECONDS`: a record's stamp.
pub fn stamp(out: &mut [u8], said: usize, seconds: u32, microseconds: u32) -> usize
    ensures { Said out.old said (stamp_text seconds microseconds) result out.new }
{
    let said = marked(out, said, b' ', seconds as u64);
    let said = append(out, said, b".");
    six_digits(out, said, microseconds)
}

fn address(out: &mut [u8], said: usize, n: u32) -> usize
    ensures { Said out.old said (address_text n) result out.new }
{
    let said = digits(out, said, (n / 16777216) as u64);
    let said = marked(out, said, b'.', (n / 65536 % 256) as u64);
    let said = marked(out, said, b'.', (n / 256 % 256) as u64);
    marked(out, said, b'.', (n % 256) as u64)
}

fn both_addresses(out: &mut [u8], said: usize, addresses: Addresses) -> usize
    ensures { Said out.old said (addresses_text addresses) result out.new }
{
    let said = address(out, said, addresses.source);
    let said = append(out, said, b" > ");
    address(out, said, addresses.destination)
}

// The addresses and a text behind them.
fn addressed(out: &mut [u8], said: usize, addresses: Addresses, text: &[u8]) -> usize
    ensures { Said out.old said (addressed_text addresses text.now) result out.new }
{
    let said = both_addresses(out, said, addresses);
    append(out, said, text)
}

fn other_protocol(out: &mut [u8], said: usize, addresses: Addresses, protocol: u8) -> usize
    ensures { Said out.old said (protocol_text addresses protocol) result out.new }
{
    let said = addressed(out, said, addresses, b" other protocol");
    marked(out, said, b' ', protocol as u64)
}

fn other_ports(out: &mut [u8], said: usize, addresses: Addresses, ports: Ports) -> usize
    ensures { Said out.old said (ports_text addresses ports) result out.new }
{
    let said = addressed(out, said, addresses, b" other ports");
    let said = marked(out, said, b' ', ports.source as u64);
    counted(out, said, b" >", ports.destination as u64)
}

fn enciphered(out: &mut [u8], said: usize, addresses: Addresses, exchange: u8, id: u32) -> usize
    ensures { Said out.old said (enciphered_text addresses exchange id) result out.new }
{
    let said = addressed(out, said, addresses, b" enciphered exchange");
    let said = marked(out, said, b' ', exchange as u64);
    let said = append(out, said, b" id ");
    hex_digits(out, said, id)
}

// ` TYPE@START+LENGTH`
fn payload(out: &mut [u8], said: usize, payload: Payload) -> usize
    ensures { Said out.old said (payload_text payload) result out.new }
{
    let said = marked(out, said, b' ', payload.payloadtype as u64);
    let said = marked(out, said, b'@', payload.start as u64);
    marked(out, said, b'+', payload.length as u64)
}

fn payloads(out: &mut [u8], said: usize, count: u8, m: &[u8]) -> usize
    ensures { Said out.old said (payloads_text count m.now) result out.new }
{
    let mut said = append(out, said, b"");
    for k in 0..count {
        said = payload(out, said, payload_at(m, k));
    }
    said
}

fn read(
    out: &mut [u8],
    said: usize,
    addresses: Addresses,
    exchange: u8,
    count: u8,
    m: &[u8],
) -> usize
    ensures { Said out.old said (read_text addresses exchange count m.now) result out.new }
{
    let said = addressed(out, said, addresses, b" exchange");
    let said = marked(out, said, b' ', exchange as u64);
    let said = counted(out, said, b" payloads", count as u64);
    payloads(out, said, count, m)
}

fn message_refused(out: &mut [u8], said: usize, addresses: Addresses, number: u16) -> usize
    ensures { Said out.old said (message_refused_text addresses number) result out.new }
{
    let said = addressed(out, said, addresses, b" ");
    say::refused(out, said, number)
}

// The addresses and the name of the protocol, with a space behind it.
fn named(out: &mut [u8], said: usize, addresses: Addresses, protocol: u8) -> usize
    ensures { Said out.old said (named_text addresses protocol) result out.new }
{
    if protocol == 2 {
        addressed(out, said, addresses, b" AH ")
    } else {
        addressed(out, said, addresses, b" ESP ")
    }
}

fn short_packet<R: Numbered>(
    out: &mut [u8],
    said: usize,
    addresses: Addresses,
    protocol: u8,
    verdict: Verdict<R>,
) -> usize
    ensures { Said out.old said (short_packet_text addresses protocol (verdict_by R.numbered verdict)) result out.new }
{
    let said = named(out, said, addresses, protocol);
    say::verdict(out, said, verdict)
}

fn spi_and_number(out: &mut [u8], said: usize, spi: u32, number: u32) -> usize
    ensures { Said out.old said (spi_text spi number) result out.new }
{
    let said = hex_digits(out, said, spi);
    counted(out, said, b" number", number as u64)
}

fn packet<R: Numbered>(
    out: &mut [u8],
    said: usize,
    addresses: Addresses,
    protocol: u8,
    spi: u32,
    number: u32,
    verdict: Verdict<R>,
) -> usize
    ensures { Said out.old said (packet_text addresses protocol spi number (verdict_by R.numbered verdict)) result out.new }
{
    let said = named(out, said, addresses, protocol);
    let said = spi_and_number(out, said, spi, number);
    let said = append(out, said, b" ");
    say::verdict(out, said, verdict)
}

// What a record is listed as; m is the message whose payloads are listed.
pub fn what<R: Numbered>(out: &mut [u8], said: usize, listed: Listed<R>, m: &[u8]) -> usize
    ensures { Said out.old said (what_text (listed_by R.numbered listed) m.now) result out.new }
{
    match listed {
        Listed::CutShort => append(out, said, b"cut short"),
        Listed::NotIpv4 => append(out, said, b"not IPv4"),
        Listed::Fragment(addresses) => addressed(out, said, addresses, b" fragment"),
        Listed::OtherProtocol(addresses, protocol) => other_protocol(
            out, said, addresses, protocol,
        ),
        Listed::OtherPorts(addresses, ports) => other_ports(out, said, addresses, ports),
        Listed::Keepalive(addresses) => addressed(out, said, addresses, b" keepalive"),
        Listed::Enciphered {
            addresses,
            exchange,
            id,
        } => enciphered(out, said, addresses, exchange, id),
        Listed::Read {
            addresses,
            exchange,
            count,
        } => read(out, said, addresses, exchange, count, m),
        Listed::Refused(addresses, refusal) => message_refused(
            out,
            said,
            addresses,
            refusal.numbered(),
        ),
        Listed::ShortPacket {
            addresses,
            protocol,
            verdict,
        } => short_packet(out, said, addresses, protocol, verdict),
        Listed::Packet {
            addresses,
            protocol,
            spi,
            number,
            verdict,
        } => { packet(out, said, addresses, protocol, spi, number, verdict) }
    }
}

fn set_and_line(out: &mut [u8], said: usize, set: ProposalNumber, line: LineNumber) -> usize
    ensures { Said out.old said (set_text set line) result out.new }
{
    let said = counted(out, said, b"chosen set", set.0 as u64);
    counted(out, said, b" line", line.0 as u64)
}

fn chosen(
    out: &mut [u8],
    said: usize,
    set: ProposalNumber,
    line: LineNumber,
    transforms: Transforms,
) -> usize
    ensures { Said out.old said (chosen_text set line transforms) result out.new }
{
    let said = set_and_line(out, said, set, line);
    let said = append(out, said, b" transforms");
    say::transforms(out, said, transforms)
}

// What a book chooses of a message: `chosen set S line L transforms T ..` or `refused N`.
pub fn choice<R: Numbered>(out: &mut [u8], said: usize, choice: Result<Choice, R>) -> usize
    ensures { Said out.old said (choice_text (choice_by R.numbered choice)) result out.new }
{
    match choice {
        Err(refusal) => say::refused(out, said, refusal.numbered()),
        Ok(
            Choice {
                set,
                line,
                transforms,
            },
        ) => chosen(out, said, set, line, transforms),
    }
}
