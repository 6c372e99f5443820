// The table of SA entries, keyed by destination, protocol and SPI: each entry is one life of an SA.
#![tactic(auto)]

pub mod table; // table.rt: 64 entries in words that the caller lends
