// What the lines of bench are made of: words, bytes in hex, numbers, `yes` or `no`, and what is said in answer.
#![tactic(auto)]

pub mod hex;
pub mod integrity;
pub mod number;
pub mod say;
pub mod words;
