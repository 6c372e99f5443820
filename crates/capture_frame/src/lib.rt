// What a record of a capture carries: an Ethernet frame, and in it what an IPv4 packet hands on.
//   Ethernet  destination (6), source (6), at most two VLAN tags (4 each), EtherType (2)
//   IPv4      version and header length (1), service (1), total length (2), identification (2), flags and fragment offset (2),
//             time to live (1), protocol (1), checksum (2), source (4), destination (4), options
//   UDP       source port (2), destination port (2), length (2), checksum (2)
#![tactic(auto)]

ghost use Rattle.std.specs.Prelude.{◌≡◌, ◌+◌, ◌≤◌, length};
ghost use Rattle.capture_frame.specs.Frame.{deciding_port, by_port, udp, by_protocol, not_ipv4, fragmented, ipv4, is_tag, ether_type, carried};

use wire_read::{be16, be32, byte};

#[derive(Clone, Copy, Debug, PartialEq, Eq)]
pub struct Addresses {
    pub source: u32,
    pub destination: u32,
}

#[derive(Clone, Copy, Debug, PartialEq, Eq)]
pub struct Ports {
    pub source: u16,
    pub destination: u16,
}

// Where something lies in the record.
#[derive(Clone, Copy, Debug, PartialEq, Eq)]
pub struct Part {
    pub start: usize,
    pub length: usize,
}

#[derive(Clone, Copy, Debug, PartialEq, Eq)]
pub enum Frame {
    CutShort,
    NotIpv4,
    Fragment(Addresses),
    // The protocol's number in the IP header.
    OtherProtocol(Addresses, u8),
    OtherPorts(Addresses, Ports),
    // A key exchange message, the data of UDP 500.
    Message(Addresses, Part),
    // What arrives at port 4500.
    Datagram(Addresses, Part),
    // An AH or ESP packet, all that stands behind the IP header.
    Ah(Addresses, Part),
    Esp(Addresses, Part),
}

fn deciding_port(ports: Ports) -> u16
    ensures { result ≡ deciding_port ports }
{
    if (ports.destination == 500) | (ports.destination == 4500) {
        ports.destination
    } else {
        ports.source
    }
}

fn by_port(addresses: Addresses, ports: Ports, part: Part) -> Frame
    ensures { result ≡ by_port addresses ports part }
{
    let port = deciding_port(ports);
    if port == 500 {
        return Frame::Message(addresses, part);
    }
    if port == 4500 {
        return Frame::Datagram(addresses, part);
    }
    Frame::OtherPorts(addresses, ports)
}

// A packet begins behind an IP header of at most 60 bytes, which begins in the record.
fn udp(addresses: Addresses, s: &[u8], packet: Part) -> Frame
    requires { packet.start ≤ length s.now + 60 }
    ensures { result ≡ udp addresses s.now packet }
{
    let at = packet.start;
    let size = be16(s, at + 4) as usize;
    if (packet.length < 8) | (size < 8) | (packet.length < size) {
        return Frame::CutShort;
    }
    by_port(
        addresses,
        Ports {
            source: be16(s, at),
            destination: be16(s, at + 2),
        },
        Part {
            start: at + 8,
            length: size - 8,
        },
    )
}

fn by_protocol(protocol: u8, addresses: Addresses, s: &[u8], packet: Part) -> Frame
    requires { packet.start ≤ length s.now + 60 }
    ensures { result ≡ by_protocol protocol addresses s.now packet }
{
    if protocol == 51 {
        return Frame::Ah(addresses, packet);
    }
    if protocol == 50 {
        return Frame::Esp(addresses, packet);
    }
    if protocol == 17 {
        return udp(addresses, s, packet);
    }
    Frame::OtherProtocol(addresses, protocol)
}

fn not_ipv4(s: &[u8], at: usize) -> bool
    requires { at ≤ length s.now }
    ensures { result ≡ not_ipv4 s.now at }
{
    let first = byte(s, at);
    let header = first % 16 * 4;
    (first / 16 != 4) | (header < 20) | (be16(s, at + 2) < header as u16)
}

fn fragmented(s: &[u8], at: usize) -> bool
    requires { at ≤ length s.now }
    ensures { result ≡ fragmented s.now at }
{
    let field = be16(s, at + 6);
    (field / 8192 % 2 == 1) | (field % 8192 != 0)
}

// The IPv4 packet at a place of the record.
fn ipv4(s: &[u8], at: usize) -> Frame
    requires { at ≤ length s.now }
    ensures { result ≡ ipv4 s.now at }
{
    if s.len() < at + 20 {
        return Frame::CutShort;
    }
    if not_ipv4(s, at) {
        return Frame::NotIpv4;
    }
    let header = (byte(s, at) % 16 * 4) as usize;
    let total = be16(s, at + 2) as usize;
    if s.len() < at + total {
        return Frame::CutShort;
    }
    let addresses = Addresses {
        source: be32(s, at + 12),
        destination: be32(s, at + 16),
    };
    if fragmented(s, at) {
        return Frame::Fragment(addresses);
    }
    by_protocol(
        byte(s, at + 9),
        addresses,
        s,
        Part {
            start: at + header,
            length: total - header,
        },
    )
}

fn is_tag(ether_type: u16) -> bool
    ensures { result ≡ is_tag ether_type }
{
    (ether_type == 0x8100) | (ether_type == 0x88a8)
}

// What the EtherType at a place says; so many VLAN tags may still come.
fn ether_type(tags: u8, s: &[u8], at: usize) -> Frame
    requires { at + 2 ≤ length s.now }
    ensures { result ≡ ether_type tags s.now at }
{
    let kind = be16(s, at);
    if (0 < tags) & is_tag(kind) {
        if s.len() < at + 6 {
            return Frame::CutShort;
        }
        return ether_type(tags - 1, s, at + 4);
    }
    if kind == 0x0800 {
        ipv4(s, at + 2)
    } else {
        Frame::NotIpv4
    }
}

// What a record carries that was so long and of which these bytes were captured.
pub fn carried(original: u32, s: &[u8]) -> Frame
    ensures { result ≡ carried original s.now }
{
    if (s.len() < original as usize) | (s.len() < 14) {
        return Frame::CutShort;
    }
    ether_type(2, s, 12)
}
