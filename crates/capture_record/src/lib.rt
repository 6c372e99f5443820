// What is listed of a record of a capture. What it carries goes to the existing readers; an AH or ESP packet goes to the table
// of SA entries with integrity taken as yes, and an unknown key is added where 11 would stand.
#![tactic(auto)]

ghost use Rattle.std.specs.Prelude.{◌≡◌};
ghost use Rattle.message_chain.specs.Message.{message_told};
ghost use Rattle.port4500.specs.Port.{datagram};
ghost use Rattle.capture_frame.specs.Frame.{carried as Frame·carried, bytes_of_part};
ghost use Rattle.sequence_record.specs.Verdict.{verdict_told};
ghost use Rattle.capture_record.specs.Listed.{listed_told};
ghost use Rattle.capture_record.specs.Listing.{least_bytes, spi_of, number_of, is_eleven, shown, listed_packet, packet_listed, read_listed, message_listed, datagram_listed, listed, handed_in};

use capture_frame::{Addresses, Frame, Part, Ports, carried};
use message_chain::Message;
use port4500::{Datagram, handed_on};
use refusal::Refusal;
use sequence_record::Verdict;
use sequence_table::table;
use sequence_table::table::{Key, Table};
use wire_read::{after, be32, byte, front};

#[derive(Clone, Copy)]
pub enum Listed<R = Refusal> {
    CutShort,
    NotIpv4,
    Fragment(Addresses),
    OtherProtocol(Addresses, u8),
    OtherPorts(Addresses, Ports),
    Keepalive(Addresses),
    Enciphered {
        addresses: Addresses,
        exchange: u8,
        id: u32,
    },
    // A message that reads: its exchange, and how many payloads it has.
    Read {
        addresses: Addresses,
        exchange: u8,
        count: u8,
    },
    // A message, or a datagram of port 4500, that does not.
    Refused(Addresses, R),
    // An AH or ESP packet, protocol 2 or 3, too short for an SPI and a number.
    ShortPacket {
        addresses: Addresses,
        protocol: u8,
        verdict: Verdict<R>,
    },
    Packet {
        addresses: Addresses,
        protocol: u8,
        spi: u32,
        number: u32,
        verdict: Verdict<R>,
    },
}

const AH: u8 = 2;

const ESP: u8 = 3;

fn least_bytes(protocol: u8) -> usize
    ensures { result ≡ least_bytes protocol }
{
    if protocol == AH { 12 } else { 8 }
}

fn spi_of(protocol: u8, s: &[u8]) -> u32
    ensures { result ≡ spi_of protocol s.now }
{
    if protocol == AH {
        be32(s, 4)
    } else {
        be32(s, 0)
    }
}

fn number_of(protocol: u8, s: &[u8]) -> u32
    ensures { result ≡ number_of protocol s.now }
{
    if protocol == AH {
        be32(s, 8)
    } else {
        be32(s, 4)
    }
}

// Whether the packet reads, and its key has no entry.
fn is_eleven(verdict: Verdict) -> bool
    ensures { result ≡ is_eleven (verdict_told verdict) }
{
    verdict == Err(Refusal::InvalidSpi)
}

// The table's verdict on a packet, its key added first where it has no entry. Where that is refused, so is the packet.
fn shown(t: &mut Table, destination: u32, protocol: u8, s: &[u8]) -> Verdict
    ensures { shown t.old destination protocol s.now ≡ (verdict_told result, t.new) }
{
    let verdict = table::packet(t, destination, protocol, true, s);
    if !is_eleven(verdict) {
        return verdict;
    }
    let spi = spi_of(protocol, s);
    let key = Key {
        destination,
        protocol,
        spi,
    };
    table::add(t, key)?;
    table::packet(t, destination, protocol, true, s)
}

fn listed_packet(addresses: Addresses, protocol: u8, s: &[u8], verdict: Verdict) -> Listed
    ensures { listed_told result ≡ listed_packet addresses protocol s.now (verdict_told verdict) }
{
    if s.len() < least_bytes(protocol) {
        return Listed::ShortPacket {
            addresses,
            protocol,
            verdict,
        };
    }
    Listed::Packet {
        addresses,
        protocol,
        spi: spi_of(protocol, s),
        number: number_of(protocol, s),
        verdict,
    }
}

fn packet_listed(t: &mut Table, addresses: Addresses, protocol: u8, s: &[u8]) -> Listed
    ensures { packet_listed t.old addresses protocol s.now ≡ (listed_told result, t.new) }
{
    let verdict = shown(t, addresses.destination, protocol, s);
    listed_packet(addresses, protocol, s, verdict)
}

fn read_listed(addresses: Addresses, read: Result<Message, Refusal>) -> Listed
    ensures { listed_told result ≡ read_listed addresses (message_told read) }
{
    match read {
        Err(refusal) => Listed::Refused(addresses, refusal),
        Ok(Message { exchange, count }) => Listed::Read {
            addresses,
            exchange,
            count,
        },
    }
}

fn message_listed(addresses: Addresses, m: &[u8]) -> Listed
    ensures { listed_told result ≡ message_listed addresses m.now }
{
    if (28 <= m.len()) & (byte(m, 19) == 1) {
        return Listed::Enciphered {
            addresses,
            exchange: byte(m, 18),
            id: be32(m, 20),
        };
    }
    read_listed(addresses, message_chain::read(m))
}

fn datagram_listed(t: &mut Table, addresses: Addresses, s: &[u8]) -> Listed
    ensures { datagram_listed t.old addresses s.now (datagram s.now) ≡ (listed_told result, t.new) }
{
    match port4500::read(s) {
        Ok(Datagram::Keepalive) => Listed::Keepalive(addresses),
        Ok(Datagram::KeyExchange { start, .. }) => message_listed(addresses, after(s, start)),
        Ok(Datagram::Esp { .. }) => packet_listed(t, addresses, ESP, s),
        Err(refusal) => Listed::Refused(addresses, refusal),
    }
}

// The bytes of a part of the record.
fn part_of(s: &[u8], part: Part) -> &[u8]
    ensures { result.now ≡ bytes_of_part s.now part }
{
    front(after(s, part.start), part.length)
}

// What is listed of a record that was so long and of which these bytes were captured.
pub fn list_record(t: &mut Table, original: u32, s: &[u8]) -> Listed
    ensures { listed t.old original s.now ≡ (listed_told result, t.new) }
{
    let frame = carried(original, s);
    match frame {
        Frame::CutShort => Listed::CutShort,
        Frame::NotIpv4 => Listed::NotIpv4,
        Frame::Fragment(addresses) => Listed::Fragment(addresses),
        Frame::OtherProtocol(addresses, protocol) => Listed::OtherProtocol(addresses, protocol),
        Frame::OtherPorts(addresses, ports) => Listed::OtherPorts(addresses, ports),
        Frame::Message(addresses, part) => message_listed(addresses, part_of(s, part)),
        Frame::Datagram(addresses, part) => datagram_listed(t, addresses, part_of(s, part)),
        Frame::Ah(addresses, part) => packet_listed(t, addresses, AH, part_of(s, part)),
        Frame::Esp(addresses, part) => packet_listed(t, addresses, ESP, part_of(s, part)),
    }
}

// The part of such a record that a reader or the table is given; of any other record nothing.
pub fn handed_in(original: u32, s: &[u8]) -> &[u8]
    ensures { result.now ≡ handed_in s.now (Frame·carried original s.now) }
{
    let frame = carried(original, s);
    let none = after(s, s.len());
    match frame {
        Frame::Message(_, part) => part_of(s, part),
        Frame::Datagram(_, part) => handed_on(part_of(s, part)),
        Frame::Ah(_, part) => part_of(s, part),
        Frame::Esp(_, part) => part_of(s, part),
        Frame::CutShort => none,
        Frame::NotIpv4 => none,
        Frame::Fragment(_) => none,
        Frame::OtherProtocol(_, _) => none,
        Frame::OtherPorts(_, _) => none,
    }
}
