// What a step of a quick mode end answers, and what begin, deliver and tick do alike.
#![tactic(auto)]

ghost use Rattle.std.specs.Prelude.{◌≡◌, min};
ghost use Rattle.quick_step.specs.Steps.{small, kept, with_state};

use quick_end::{End, Progress, State};
use refusal::Refusal;
use wire_read::front;

// A message to send of so many bytes, nothing to send, or a refusal: document 01 names this form, one enum with data.
#[derive(Clone, Copy, Debug, PartialEq, Eq)]
pub enum StepAnswer {
    Send(u16),
    Nothing,
    Refused(Refusal),
}

#[derive(Clone, Copy)]
pub struct Stepped {
    pub end: End,
    pub answer: StepAnswer,
}

// Whether a lent buffer is under 2,048 bytes.
pub fn small(sent: &[u8], got: &[u8], output: &[u8]) -> bool
    ensures { result ≡ small sent.now got.now output.now }
{
    (sent.len() < 2048) | (got.len() < 2048) | (output.len() < 2048)
}

// How many bytes of a kept buffer are a message: no message is longer than 2,048 bytes.
pub fn kept_size(size: u16) -> u16
    ensures { result ≡ min size 2048 }
{
    size.min(2048)
}

// The message that a kept buffer holds.
pub fn kept(size: u16, buffer: &[u8]) -> &[u8]
    ensures { result.now ≡ kept size buffer.now }
{
    front(buffer, kept_size(size) as usize)
}

// The record with another state and all else kept.
pub fn with_state(state: State, progress: Progress) -> Progress
    ensures { result ≡ with_state state progress }
{
    Progress { state, ..progress }
}
