// Names in English: of attributes, a row of Tables 6 and 7 of GB/T 36968-2018 a line, of modes and of protocols.
use sa_items::{proposal, proposal_count};

// Table 6: attributes of main mode.
pub(crate) fn main_attribute(attributetype: u16) -> &'static str {
    match attributetype {
        1 => "encryption algorithm",
        2 => "hash algorithm",
        3 => "authentication method",
        4 => "group description",
        5 => "group type",
        6 => "group prime/irreducible polynomial",
        7 => "group generator one",
        8 => "group generator two",
        9 => "group curve A",
        10 => "group curve B",
        11 => "life type",
        12 => "life duration",
        13 => "pseudorandom function",
        14 => "key length",
        15 => "field size",
        16 => "group order",
        17 => "block size",
        20 => "asymmetric algorithm type",
        _ => "not in Table 6",
    }
}

// Table 7: attributes of quick mode.
pub(crate) fn quick_attribute(attributetype: u16) -> &'static str {
    match attributetype {
        1 => "life type",
        2 => "life duration",
        3 => "group description",
        4 => "encapsulation mode",
        5 => "authentication algorithm",
        6 => "key length",
        7 => "key rounds",
        8 => "compress dictionary size",
        9 => "compress private algorithm",
        _ => "not in Table 7",
    }
}

// Table 13: modes, 1 to 4.
pub(crate) fn mode(number: u32) -> &'static str {
    match number {
        1 => "tunnel",
        2 => "transport",
        3 => "tunnel through NAT",
        _ => "transport through NAT",
    }
}

// A proposal's protocol in quick mode.
pub(crate) fn protocol(number: u8) -> &'static str {
    if number == 2 { "AH" } else { "ESP" }
}

// A quick line's protocols.
pub(crate) fn protocols(number: u8) -> &'static str {
    if number == 1 {
        "ESP alone"
    } else {
        "AH with ESP"
    }
}

// A set's protocols in quick mode, where it has each at most once. ./lawful says it of main mode too, in a text of its own.
pub(crate) fn protocols_of(set: &[u8]) -> &'static str {
    if proposal_count(set) != 1 {
        "AH with ESP"
    } else if sa_fields::protocol(proposal(0, set)) == 2 {
        "AH alone"
    } else {
        "ESP alone"
    }
}
