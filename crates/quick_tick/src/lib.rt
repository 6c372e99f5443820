// A tick: an end that waits sends its kept message again, up to four sends.
#![tactic(auto)]

ghost use Rattle.std.specs.Prelude.{◌≡◌, ◌<◌};
ghost use Rattle.refusal.specs.Numbers.{coded};
ghost use Rattle.quick_step.specs.Steps.{after_step, stepped_told};
ghost use Rattle.quick_tick.specs.Tick.{tick_code, one_more, is_open, ticked};

use quick_end::{End, Progress, State, is_given_up, is_idle};
use quick_step::{StepAnswer, Stepped, kept, kept_size, small, with_state};
use refusal::Refusal;
use wire_write::put_bytes;

fn is_open(state: State) -> bool
    ensures { result ≡ is_open state }
{
    state == State::Open
}

fn tick_code(state: State, tight: bool) -> Result<(), Refusal>
    ensures { coded result ≡ tick_code state tight }
{
    if tight {
        return Err(Refusal::BufferTooSmall);
    }
    if is_given_up(state) {
        return Err(Refusal::GivenUp);
    }
    if is_idle(state) {
        return Err(Refusal::CallUnexpected);
    }
    Ok(())
}

fn one_more(progress: Progress) -> Progress
    requires { progress.sends < 4 }
    ensures { result ≡ one_more progress }
{
    Progress {
        sends: progress.sends + 1,
        ..progress
    }
}

// Time has passed. Only `output` is written to.
pub fn tick(end: End, sent: &[u8], got: &[u8], output: &mut [u8]) -> Stepped
    ensures { ticked end sent.now got.now output.old ≡
        after_step (stepped_told result) sent.now got.now output.new }
{
    let progress = end.progress;
    let state = progress.state;
    if let Err(refusal) = tick_code(state, small(sent, got, output)) {
        return Stepped {
            end,
            answer: StepAnswer::Refused(refusal),
        };
    }
    if is_open(state) {
        return Stepped {
            end,
            answer: StepAnswer::Nothing,
        };
    }
    if progress.sends < 4 {
        put_bytes(output, 0, kept(progress.sentsize, sent));
        return Stepped {
            end: End {
                progress: one_more(progress),
                ..end
            },
            answer: StepAnswer::Send(kept_size(progress.sentsize)),
        };
    }
    Stepped {
        end: End {
            progress: with_state(State::GivenUp, progress),
            ..end
        },
        answer: StepAnswer::Nothing,
    }
}
