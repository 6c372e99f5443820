// Begin: an Idle initiator offers one set for each quick line.
#![tactic(auto)]

ghost use Rattle.std.specs.Prelude.{◌≡◌, ◌≤◌, length};
ghost use Rattle.wire_write.specs.Put.{put};
ghost use Rattle.quick_write.specs.Messages.{message_one};
ghost use Rattle.refusal.specs.Numbers.{coded};
ghost use Rattle.quick_step.specs.Steps.{after_step, stepped_told};
ghost use Rattle.quick_begin.specs.Begin.{identities_wrong, begin_code, begun};

use identity::identity_code;
use quick_end::{End, Own, Progress, State, is_given_up, is_idle, is_initiator};
use quick_step::{StepAnswer, Stepped, small};
use quick_write::{Proposals, lines, put_longer};
use refusal::Refusal;
use wire_read::front;

fn identities_wrong(first: &[u8], second: &[u8]) -> bool
    ensures { result ≡ identities_wrong first.now second.now }
{
    let none = (first.len() == 0) & (second.len() == 0);
    let both = identity_code(32, first).is_ok() & identity_code(32, second).is_ok();
    !(none | both)
}

fn begin_code(end: End, id: u32, first: &[u8], second: &[u8], tight: bool) -> Result<(), Refusal>
    ensures { coded result ≡ begin_code end id first.now second.now tight }
{
    let own = end.own;
    let state = end.progress.state;
    if tight {
        return Err(Refusal::BufferTooSmall);
    }
    if is_given_up(state) {
        return Err(Refusal::GivenUp);
    }
    if !(is_initiator(own.role) & is_idle(state)) {
        return Err(Refusal::CallUnexpected);
    }
    if id == 0 {
        return Err(Refusal::InvalidMessageId);
    }
    if identities_wrong(first, second) {
        return Err(Refusal::InvalidIdInformation);
    }
    if lines(front(&own.book, own.booksize as usize)) == 0 {
        return Err(Refusal::NoProposalChosen);
    }
    Ok(())
}

// Writes message 1; says how long it is.
fn put_one(buffer: &mut [u8], own: Own, id: u32, first: &[u8], second: &[u8]) -> u16
    requires { (length first.now ≤ 36) × (length second.now ≤ 36) }
    ensures { put buffer.old 0 (message_one own id first.now second.now) ≡ (result, buffer.new) }
{
    let none = front(first, 0);
    let written = put_longer(buffer, own, id, Proposals::Offer, none, first, second);
    // Never: no part is too long.
    let Some(size) = written else {
        return 0;
    };
    size
}

// Begins with a message ID and two identity bodies, both empty for none. Message 1 goes to `sent` and `output`.
pub fn begin(
    end: End,
    id: u32,
    first: &[u8],
    second: &[u8],
    sent: &mut [u8],
    got: &[u8],
    output: &mut [u8],
) -> Stepped
    ensures { begun end id first.now second.now sent.old got.now output.old ≡
        after_step (stepped_told result) sent.new got.now output.new }
{
    if let Err(refusal) = begin_code(end, id, first, second, small(sent, got, output)) {
        return Stepped {
            end,
            answer: StepAnswer::Refused(refusal),
        };
    }
    put_one(sent, end.own, id, first, second);
    let size = put_one(output, end.own, id, first, second);
    let progress = Progress {
        state: State::Sent,
        sends: 1,
        id,
        sentsize: size,
        ..end.progress
    };
    Stepped {
        end: End { progress, ..end },
        answer: StepAnswer::Send(size),
    }
}
