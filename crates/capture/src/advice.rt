// What standard error says where an ordinary capture disappoints: what it is, and how to save it so that it reads. Each kind is
// said once, and what was listed before is written first.
use crate::Place;
use crate::output::Output;
use capture_header::{HeaderCause, Order};
use capture_record::Listed;
use refusal::Refusal;
use std::rt::Runtime;
use wire_read::{be16, be32};

fn say(rt: &impl Runtime, text: &str) {
    let _ = rt.eprint(text);
}

fn say_number(rt: &impl Runtime, n: u64) {
    let _ = rt.eprint(n);
}

fn begin(rt: &impl Runtime) {
    say(rt, "./capture: ");
}

// What the file is whose header is refused.
pub(crate) fn header(rt: &impl Runtime, cause: Option<HeaderCause>) {
    let Some(cause) = cause else {
        return;
    };
    match cause {
        HeaderCause::Short => short(rt),
        HeaderCause::Pcapng => pcapng(rt),
        HeaderCause::Nanoseconds => nanoseconds(rt),
        HeaderCause::Version { major, minor } => version(rt, major, minor),
        HeaderCause::CheckSequences => check_sequences(rt),
        HeaderCause::LinkType(number) => link_type(rt, number),
        HeaderCause::NoCapture => no_capture(rt),
    }
}

fn short(rt: &impl Runtime) {
    begin(rt);
    say(
        rt,
        "this is no capture: a capture file begins with a header of 24 bytes, and here are fewer; ",
    );
    say(rt, "record it anew, as with tcpdump -i eth0 -s 0 -w NEW\n");
}

fn pcapng(rt: &impl Runtime) {
    begin(rt);
    say(
        rt,
        "this is a pcapng file, and only classic pcap is read; save it so with editcap -F pcap FILE NEW\n",
    );
}

fn nanoseconds(rt: &impl Runtime) {
    begin(rt);
    say(
        rt,
        "the capture's stamps are in nanoseconds, and only microseconds are read; save it so with editcap -F pcap FILE NEW, ",
    );
    say(rt, "or record with tcpdump --time-stamp-precision=micro\n");
}

fn version(rt: &impl Runtime, major: u16, minor: u16) {
    begin(rt);
    say(rt, "the capture is of version ");
    say_number(rt, major as u64);
    say(rt, ".");
    say_number(rt, minor as u64);
    say(
        rt,
        ", and only 2.4 is read; save it so with editcap -F pcap FILE NEW\n",
    );
}

fn check_sequences(rt: &impl Runtime) {
    begin(rt);
    say(
        rt,
        "the capture's header says that check sequences (FCS) stand behind the frames, and only one that does not say so is read; ",
    );
    say(rt, "save it so with editcap -F pcap FILE NEW\n");
}

fn link_type(rt: &impl Runtime, number: u16) {
    begin(rt);
    say(rt, "the capture's link type is ");
    say_number(rt, number as u64);
    match number {
        113 | 276 => say(rt, ", Linux's own header, as tcpdump -i any records"),
        101 => say(
            rt,
            ", IP with no Ethernet before it, as a tunnel's interface or a phone records",
        ),
        _ => {}
    }
    say(
        rt,
        ", and only 1, Ethernet, is read; record on one Ethernet interface, as with tcpdump -i eth0 -s 0 -w NEW\n",
    );
}

fn no_capture(rt: &impl Runtime) {
    begin(rt);
    say(
        rt,
        "this is no capture: it does not begin as one; give what tcpdump -w or Wireshark as pcap saved, ",
    );
    say(
        rt,
        "unpacked where it is packed (gzip -dc FILE.gz | ./capture)\n",
    );
}

// The next record is too long to be read.
pub(crate) fn long_record(rt: &impl Runtime, order: Order, s: &[u8], here: Place) {
    begin_record(rt, here);
    say(rt, " has ");
    say_number(rt, captured(order, s) as u64);
    say(
        rt,
        " bytes, over the 65,535 that are read; offloading joins packets to such records: turn it off before recording, ",
    );
    say(
        rt,
        "as with ethtool -K eth0 gro off gso off tso off; or the file is damaged there\n",
    );
}

fn begin_record(rt: &impl Runtime, here: Place) {
    begin(rt);
    say(rt, "record ");
    say_number(rt, here.number);
    say(rt, " at ");
    say_number(rt, here.at);
}

// The captured length in a record's header. capture_header reads it too, but tells it of no record that is too long.
fn captured(order: Order, s: &[u8]) -> u32 {
    match order {
        Order::Big => be32(s, 8),
        Order::Little => be32(s, 8).swap_bytes(),
    }
}

// What was said once: that a snap length cut a record short, that the table is full, that a frame is PPPoE.
#[derive(Drop)]
pub(crate) struct Advice {
    pub(crate) snap: bool,
    pub(crate) full: bool,
    pub(crate) pppoe: bool,
}

impl Advice {
    // What is said of a record that is listed.
    pub(crate) fn record(
        &mut self,
        rt: &impl Runtime,
        output: &mut Output,
        here: Place,
        original: u32,
        s: &[u8],
        listed: Listed,
        refusal: Option<Refusal>,
    ) {
        match listed {
            Listed::CutShort => self.snap(rt, output, here, original, s.len()),
            Listed::NotIpv4 => self.pppoe(rt, output, here, s),
            _ => self.full(rt, output, here, refusal),
        }
    }

    fn snap(
        &mut self,
        rt: &impl Runtime,
        output: &mut Output,
        here: Place,
        original: u32,
        size: usize,
    ) {
        if self.snap | (original as usize <= size) {
            return;
        }
        output.flush(rt);
        if output.left {
            return;
        }
        begin_record(rt, here);
        say(rt, " has ");
        say_number(rt, size as u64);
        say(rt, " of its ");
        say_number(rt, original as u64);
        say(
            rt,
            " bytes: a snap length cut it short; record with -s 0, as with tcpdump -i eth0 -s 0 -w NEW\n",
        );
        self.snap = true;
    }

    fn pppoe(&mut self, rt: &impl Runtime, output: &mut Output, here: Place, s: &[u8]) {
        if self.pppoe | (behind_tags(s) != 0x8864) {
            return;
        }
        output.flush(rt);
        if output.left {
            return;
        }
        begin_record(rt, here);
        say(
            rt,
            " is PPPoE, a dialled line's own frame around the IP packet; such records are listed as not IPv4: ",
        );
        say(rt, "record on the other side of what dials\n");
        self.pppoe = true;
    }

    fn full(
        &mut self,
        rt: &impl Runtime,
        output: &mut Output,
        here: Place,
        refusal: Option<Refusal>,
    ) {
        if self.full | (refusal != Some(Refusal::TableFull)) {
            return;
        }
        output.flush(rt);
        if output.left {
            return;
        }
        begin_record(rt, here);
        say(
            rt,
            " is of an SA too many: the table holds 64 SAs, and packets of any more are refused with 8199; ",
        );
        say(
            rt,
            "take one peer's packets, as with tcpdump -r FILE -w NEW host ADDRESS\n",
        );
        self.full = true;
    }
}

// The EtherType behind at most two VLAN tags. capture_frame goes by it too, but gives it to nobody.
fn behind_tags(s: &[u8]) -> u16 {
    let first = be16(s, 12);
    if !is_tag(first) {
        return first;
    }
    let second = be16(s, 16);
    if !is_tag(second) {
        return second;
    }
    be16(s, 20)
}

fn is_tag(ether_type: u16) -> bool {
    (ether_type == 0x8100) | (ether_type == 0x88a8)
}
