// What other languages call for quick mode: steps of a lent end, and what it holds.
#![tactic(auto)]

ghost use Rattle.std.specs.Prelude.{◌≡◌};
ghost use Rattle.quick_end.specs.Fresh.{fresh};
ghost use Rattle.quick_step.specs.Steps.{stepped_told};
ghost use Rattle.quick_shape.specs.Shapes.{nonce};
ghost use Rattle.quick_begin.specs.Begin.{begun};
ghost use Rattle.quick_tick.specs.Tick.{ticked};
ghost use Rattle.quick_deliver.specs.Deliver.{delivered};
ghost use Rattle.exports_words.specs.Given.{given};
ghost use Rattle.exports_end.specs.Ends.{progress_of, end_of};
ghost use Rattle.exports_quick.specs.Called.{role_by, fresh_called, finished, called, state_answer, agreed_answer, nonce_called};

use exports_end::{
    end_of, progress_of, put_end, put_progress, spis_values, state_number, transforms_values,
};
use quick_begin::begin;
use quick_deliver::deliver;
use quick_end::{Role, fresh};
use quick_shape::nonce;
use quick_step::{StepAnswer, Stepped};
use quick_tick::tick;
use wire_write::put_bytes;

fn role_by(initiator: bool) -> Role
    ensures { result ≡ role_by initiator }
{
    if initiator {
        return Role::Initiator;
    }
    Role::Responder
}

// An end starts anew in the lent bytes.
pub fn tallowbrim_fresh(
    end: &mut [u8; 398],
    initiator: bool,
    icookie: u64,
    rcookie: u64,
    book: &[u8],
    ah: u32,
    esp: u32,
    nonce: &[u8],
) -> u32
    ensures { fresh_called end.old
        (fresh (role_by initiator) icookie rcookie book.now ah esp nonce.now) ≡ (result, end.new) }
{
    match fresh(role_by(initiator), icookie, rcookie, book, ah, esp, nonce) {
        Ok(begins) => {
            put_end(end, begins);
            0
        }
        Err(refusal) => u32::from(refusal),
    }
}

// What a step leaves of a lent end, and in the words.
fn finish(end: &mut [u8; 398], step: Stepped, out: &mut [u64; 2]) -> u32
    ensures { finished end.old out.old (stepped_told step) ≡ (result, end.new, out.new) }
{
    let answer = step.answer;
    let after = step.end;
    let progress = after.progress;
    match answer {
        StepAnswer::Refused(refusal) => u32::from(refusal),
        StepAnswer::Nothing => {
            put_progress(end, progress);
            *out = [0, 0];
            0
        }
        StepAnswer::Send(size) => {
            put_progress(end, progress);
            *out = [1, size as u64];
            0
        }
    }
}

// The initiator begins.
pub fn tallowbrim_begin(
    end: &mut [u8; 398],
    id: u32,
    first: &[u8],
    second: &[u8],
    sent: &mut [u8],
    got: &[u8],
    output: &mut [u8],
    out: &mut [u64; 2],
) -> u32
    ensures { called end.old out.old
        (begun (end_of end.old) id first.now second.now sent.old got.now output.old) ≡
        record {
          number = result;
          end = end.new;
          out = out.new;
          sent = sent.new;
          got = got.now;
          output = output.new;
        } }
{
    let before = end_of(end);
    let step = begin(before, id, first, second, sent, got, output);
    finish(end, step, out)
}

// A message arrives.
pub fn tallowbrim_deliver(
    end: &mut [u8; 398],
    holds: bool,
    m: &[u8],
    sent: &mut [u8],
    got: &mut [u8],
    output: &mut [u8],
    out: &mut [u64; 2],
) -> u32
    ensures { called end.old out.old
        (delivered (end_of end.old) holds m.now sent.old got.old output.old) ≡
        record {
          number = result;
          end = end.new;
          out = out.new;
          sent = sent.new;
          got = got.new;
          output = output.new;
        } }
{
    let before = end_of(end);
    let step = deliver(before, holds, m, sent, got, output);
    finish(end, step, out)
}

// Time has passed without an answer.
pub fn tallowbrim_tick(
    end: &mut [u8; 398],
    sent: &[u8],
    got: &[u8],
    output: &mut [u8],
    out: &mut [u64; 2],
) -> u32
    ensures { called end.old out.old
        (ticked (end_of end.old) sent.now got.now output.old) ≡
        record {
          number = result;
          end = end.new;
          out = out.new;
          sent = sent.now;
          got = got.now;
          output = output.new;
        } }
{
    let before = end_of(end);
    let step = tick(before, sent, got, output);
    finish(end, step, out)
}

// Where an end stands.
pub fn tallowbrim_state(end: &[u8; 398], out: &mut [u64; 4]) -> u32
    ensures { given 4 (state_answer (progress_of end.now)) out.old ≡ (result, out.new) }
{
    let progress = progress_of(end);
    let state = progress.state;
    *out = [
        state_number(state) as u64,
        progress.sends as u64,
        progress.sentsize as u64,
        progress.gotsize as u64,
    ];
    0
}

// What the ends agreed on.
pub fn tallowbrim_agreed(end: &[u8; 398], out: &mut [u64; 10]) -> u32
    ensures { given 10 (agreed_answer (progress_of end.now)) out.old ≡ (result, out.new) }
{
    let progress = progress_of(end);
    if progress.gotsize == 0 {
        return 8195;
    }
    let agreed = progress.agreed;
    let set = agreed.set;
    let transforms = agreed.transforms;
    let initiator = agreed.initiator;
    let responder = agreed.responder;
    let t = transforms_values(transforms);
    let i = spis_values(initiator);
    let r = spis_values(responder);
    *out = [
        set.0 as u64,
        t[0] as u64,
        t[1] as u64,
        t[2] as u64,
        i[0],
        i[1],
        i[2],
        r[0],
        r[1],
        r[2],
    ];
    0
}

// The nonce of the initiator's or of the responder's message.
pub fn tallowbrim_nonce<'a>(
    initiator: bool,
    initiators: &'a [u8],
    responders: &'a [u8],
    buffer: &mut [u8; 256],
    out: &mut [u64; 1],
) -> u32
    ensures { nonce_called (nonce (role_by initiator) initiators.now responders.now) buffer.old ≡
        (result, out.new, buffer.new) }
{
    let found = nonce(role_by(initiator), initiators, responders);
    put_bytes(buffer, 0, found);
    *out = [found.len() as u64];
    0
}
