// What other languages call to read a capture: its headers, and what a record carries.
#![tactic(auto)]

ghost use Rattle.std.specs.Prelude.{◌≡◌, [], ◌∷◌};
ghost use Rattle.exports_words.specs.Given.{words, given};
ghost use Rattle.capture_header.specs.Headers.{file_header, record_header, header_cause, order_value, file_header_answer, record_header_answer, header_cause_answer};
ghost use Rattle.capture_frame.specs.Frame.{carried, address_values, part_values, frame_answer};
ghost use Rattle.exports_capture.specs.Orders.{order_of};

use capture_frame::{Addresses, Frame, Part};
use capture_header::{HeaderCause, Order};

// The numbers that the header gives an order: no From, since both types are of other crates.
fn order_value(order: Order) -> u64
    ensures { result ≡ order_value order }
{
    match order {
        Order::Big => 1,
        Order::Little => 2,
    }
}

fn order_of(order: u64) -> Order
    ensures { result ≡ order_of order }
{
    if order == 1 {
        Order::Big
    } else {
        Order::Little
    }
}

// The first 24 bytes of a capture file: its byte order.
pub fn tallowbrim_file_header(s: &[u8], out: &mut [u64; 1]) -> u32
    ensures { given 1 (file_header_answer (file_header s.now)) out.old ≡ (result, out.new) }
{
    match capture_header::file_header(s) {
        Ok(order) => *out = [order_value(order)],
        Err(refusal) => return u32::from(refusal),
    }
    0
}

fn cause_words(cause: Option<HeaderCause>) -> [u64; 3]
    ensures { result ≡ words 3 (header_cause_answer cause).values }
{
    let Some(cause) = cause else {
        return [1, 0, 0];
    };
    match cause {
        HeaderCause::Short => [2, 0, 0],
        HeaderCause::Pcapng => [3, 0, 0],
        HeaderCause::Nanoseconds => [4, 0, 0],
        HeaderCause::Version { major, minor } => [5, major as u64, minor as u64],
        HeaderCause::CheckSequences => [6, 0, 0],
        HeaderCause::LinkType(number) => [7, number as u64, 0],
        HeaderCause::NoCapture => [8, 0, 0],
    }
}

// What a file is whose header is refused.
pub fn tallowbrim_header_cause(s: &[u8], out: &mut [u64; 3]) -> u32
    ensures { given 3 (header_cause_answer (header_cause s.now)) out.old ≡ (result, out.new) }
{
    *out = cause_words(capture_header::header_cause(s));
    0
}

// The 16 bytes in front of a record; the order is 1 for big-endian, anything else for little-endian.
pub fn tallowbrim_record_header(order: u64, s: &[u8], out: &mut [u64; 5]) -> u32
    ensures { given 5 (record_header_answer (record_header (order_of order) s.now)) out.old ≡ (result, out.new) }
{
    match capture_header::record_header(order_of(order), s) {
        Ok(Some(header)) => {
            *out = [
                1,
                header.seconds as u64,
                header.microseconds as u64,
                header.captured as u64,
                header.original as u64,
            ];
        }
        Ok(None) => *out = [2, 0, 0, 0, 0],
        Err(refusal) => return u32::from(refusal),
    }
    0
}

// What a record with addresses is, and two values behind them.
fn addressed(what: u64, addresses: Addresses, first: u64, second: u64) -> [u64; 5]
    ensures { result ≡ what ∷ address_values addresses (first ∷ second ∷ []) }
{
    [
        what,
        addresses.source as u64,
        addresses.destination as u64,
        first,
        second,
    ]
}

fn with_part(what: u64, addresses: Addresses, part: Part) -> [u64; 5]
    ensures { result ≡ what ∷ address_values addresses (part_values part) }
{
    addressed(what, addresses, part.start as u64, part.length as u64)
}

fn frame_words(frame: Frame) -> [u64; 5]
    ensures { result ≡ words 5 (frame_answer frame).values }
{
    match frame {
        Frame::CutShort => [1, 0, 0, 0, 0],
        Frame::NotIpv4 => [2, 0, 0, 0, 0],
        Frame::Fragment(addresses) => addressed(3, addresses, 0, 0),
        Frame::OtherProtocol(addresses, protocol) => addressed(4, addresses, protocol as u64, 0),
        Frame::OtherPorts(addresses, ports) => addressed(
            5,
            addresses,
            ports.source as u64,
            ports.destination as u64,
        ),
        Frame::Message(addresses, part) => with_part(6, addresses, part),
        Frame::Datagram(addresses, part) => with_part(7, addresses, part),
        Frame::Ah(addresses, packet) => with_part(8, addresses, packet),
        Frame::Esp(addresses, packet) => with_part(9, addresses, packet),
    }
}

// What a record carries that was so long and of which these bytes were captured.
pub fn tallowbrim_carried(original: u32, s: &[u8], out: &mut [u64; 5]) -> u32
    ensures { given 5 (frame_answer (carried original s.now)) out.old ≡ (result, out.new) }
{
    *out = frame_words(capture_frame::carried(original, s));
    0
}
