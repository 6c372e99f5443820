// Names of sets, of protocols and of transforms. A transform of main mode goes without its protocol, which is the only one there.
use sa_fields::{ProposalNumber, TransformNumber};
use sa_items::{proposal, proposal_count};
use std::io;
use std::io::Write;

pub(crate) fn set(out: &mut impl Write, number: ProposalNumber) -> io::Result<()> {
    write!(out, "set {}", number.0)
}

pub(crate) fn is_main(protocol: u8) -> bool {
    protocol == 1
}

pub(crate) fn protocol(number: u8) -> &'static str {
    match number {
        1 => "ISAKMP",
        2 => "AH",
        _ => "ESP",
    }
}

// A set's protocols, of which it has each at most once.
pub(crate) fn protocols_of(set: &[u8]) -> &'static str {
    if 1 < proposal_count(set) {
        return "AH with ESP";
    }
    match sa_fields::protocol(proposal(0, set)) {
        1 => "ISAKMP",
        2 => "AH alone",
        _ => "ESP alone",
    }
}

// The order of AH and ESP in a set that has both, by its first protocol.
pub(crate) fn order(first: u8) -> &'static str {
    if first == 2 {
        "AH before ESP"
    } else {
        "ESP before AH"
    }
}

pub(crate) fn transform(out: &mut impl Write, of: u8, number: TransformNumber) -> io::Result<()> {
    if !is_main(of) {
        write!(out, "{} ", protocol(of))?;
    }
    write!(out, "transform {}", number.0)
}
