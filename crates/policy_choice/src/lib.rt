// The choice: the first set, the first line that it suits, the lowest transform in each proposal.
#![tactic(auto)]

pub mod choose;

use policy_lines::LineNumber;
use sa_fields::{ProposalNumber, TransformNumber};

// A chosen transform for each proposal of the set, in the offer's order.
#[derive(Clone, Copy, Debug, PartialEq, Eq)]
pub enum Transforms {
    One(TransformNumber),
    Two(TransformNumber, TransformNumber),
}

// The chosen set, the line that it suits, and the transforms.
#[derive(Clone, Copy, Debug, PartialEq, Eq)]
pub struct Choice {
    pub set: ProposalNumber,
    pub line: LineNumber,
    pub transforms: Transforms,
}
