// What a program in another language links: each function that the exports_ crates have for it, under the same name and with the same
// clauses, by C's calling convention.
#![tactic(auto)]

mod capture;
mod lawful;
mod policy;
mod quick;
mod reading;
mod record;
mod sequence;
mod why;
