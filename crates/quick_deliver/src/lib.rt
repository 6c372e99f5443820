// A delivery: the checks, then what each end does in each state. A message is read once, and the shape that was found handed on.
#![tactic(auto)]

ghost use Rattle.std.specs.Prelude.{◌≡◌, ◌≤◌, length};
ghost use Rattle.wire_write.specs.Put.{put};
ghost use Rattle.refusal.specs.Numbers.{number, coded};
ghost use Rattle.quick_step.specs.Steps.{Refused};
ghost use Rattle.quick_end.specs.declared.State.TheVariants.{Idle, Sent, Half};
ghost use Rattle.sa_sets.specs.Sets.{set_numbered};
ghost use Rattle.policy_choice.specs.Choice.{body_at};
ghost use Rattle.quick_shape.specs.Shapes.{shape_of};
ghost use Rattle.quick_end.specs.Fresh.{is_given_up};
ghost use Rattle.quick_step.specs.Steps.{after_step, stepped, stepped_told, repeated_step, repeated_output};
ghost use Rattle.quick_deliver.specs.Deliver.{early_code, opened, at_initiator, identity_at, message_two_to, agreed_one, halfway, at_responder, delivered};

use policy_choice::choose::{body_at, choose_from};
use policy_choice::{Choice, Transforms};
use quick_agreed::{own_spis, spis_of};
use quick_check::read_code;
use quick_end::{Agreed, End, Own, Progress, State, is_given_up, is_initiator};
use quick_shape::{alike, count_of, is_longer, shape};
use quick_step::{StepAnswer, Stepped, kept, kept_size, small, with_state};
use quick_taken::{agreed_two, taken_code};
use quick_write::{Proposals, put_longer, put_three};
use refusal::Refusal;
use sa_fields::ProposalNumber;
use sa_sets::set_numbered;
use wire_read::{be32, front};
use wire_write::put_bytes;

// The checks before the reading.
fn early_code(state: State, holds: bool, tight: bool) -> Result<(), Refusal>
    ensures { coded result ≡ early_code tight holds (is_given_up state) 0 }
{
    if tight {
        return Err(Refusal::BufferTooSmall);
    }
    if !holds {
        return Err(Refusal::InvalidHashInformation);
    }
    if is_given_up(state) {
        return Err(Refusal::GivenUp);
    }
    Ok(())
}

fn refuse(end: End, refusal: Refusal) -> Stepped
    ensures { stepped_told result ≡ stepped end (Refused (number refusal)) }
{
    Stepped {
        end,
        answer: StepAnswer::Refused(refusal),
    }
}

// Sends the kept message again.
fn repeat(end: End, sent: &[u8], output: &mut [u8]) -> Stepped
    ensures { (stepped_told result ≡ repeated_step end.progress end) × (output.new ≡ repeated_output end sent.now output.old) }
{
    let progress = end.progress;
    put_bytes(output, 0, kept(progress.sentsize, sent));
    Stepped {
        end,
        answer: StepAnswer::Send(kept_size(progress.sentsize)),
    }
}

// Message 2 was taken: the initiator opens, and writes message 3.
fn open(end: End, m: &[u8], sent: &mut [u8], got: &mut [u8], output: &mut [u8]) -> Stepped
    requires { length m.now ≤ 2048 }
    ensures { opened end m.now sent.old got.old output.old ≡
        after_step (stepped_told result) sent.new got.new output.new }
{
    let own = end.own;
    let progress = end.progress;
    let agreed = agreed_two(kept(progress.sentsize, sent), m);
    put_bytes(got, 0, m);
    put_three(sent, own, progress.id);
    let size = put_three(output, own, progress.id);
    let progress = Progress {
        state: State::Open,
        sentsize: size,
        gotsize: m.len() as u16,
        agreed,
        ..progress
    };
    Stepped {
        end: End { progress, ..end },
        answer: StepAnswer::Send(size),
    }
}

// Message 2 at an initiator that sent message 1.
fn take_two(
    end: End,
    m: &[u8],
    found: u8,
    sent: &mut [u8],
    got: &mut [u8],
    output: &mut [u8],
) -> Stepped
    requires { (length m.now ≤ 2048) × (found ≡ shape_of m.now) }
    ensures { at_initiator end m.now sent.old got.old output.old Sent ≡
        after_step (stepped_told result) sent.new got.new output.new }
{
    let progress = end.progress;
    if !is_longer(found) {
        return refuse(end, Refusal::CallUnexpected);
    }
    if let Err(refusal) = taken_code(found, kept(progress.sentsize, sent), m) {
        return refuse(end, refusal);
    }
    open(end, m, sent, got, output)
}

fn at_initiator(
    end: End,
    m: &[u8],
    found: u8,
    sent: &mut [u8],
    got: &mut [u8],
    output: &mut [u8],
) -> Stepped
    requires { (length m.now ≤ 2048) × (found ≡ shape_of m.now) }
    ensures { at_initiator end m.now sent.old got.old output.old end.progress.state ≡
        after_step (stepped_told result) sent.new got.new output.new }
{
    let progress = end.progress;
    let state = progress.state;
    match state {
        State::Sent => take_two(end, m, found, sent, got, output),
        State::Open => {
            if alike(m, kept(progress.gotsize, got)) {
                return repeat(end, sent, output);
            }
            refuse(end, Refusal::CallUnexpected)
        }
        State::Idle | State::Half | State::GivenUp => refuse(end, Refusal::CallUnexpected),
    }
}

// The identities of a message, no bytes where it has none.
fn identity_at(k: u8, m: &[u8], found: u8) -> &[u8]
    requires { found ≡ shape_of m.now }
    ensures { result.now ≡ identity_at k m.now }
{
    if found == 5 {
        return body_at(k, m);
    }
    front(m, 0)
}

// What message 1 agrees on once a set was chosen.
fn agreed_one(own: Own, number: ProposalNumber, transforms: Transforms, set: &[u8]) -> Agreed
    ensures { result ≡ agreed_one own number transforms set.now }
{
    let initiator = spis_of(set);
    let responder = own_spis(own.ah, own.esp, set);
    Agreed {
        set: number,
        transforms,
        initiator,
        responder,
    }
}

// Writes message 2, the identities of message 1 repeated; says how long it is.
fn put_two(
    buffer: &mut [u8],
    own: Own,
    transforms: Transforms,
    set: &[u8],
    m: &[u8],
    found: u8,
) -> u16
    requires { (length set.now ≤ 2048) × (length m.now ≤ 2048) × (found ≡ shape_of m.now) }
    ensures { put buffer.old 0 (message_two_to m.now own transforms set.now) ≡ (result, buffer.new) }
{
    let id = be32(m, 20);
    let first = identity_at(3, m, found);
    let second = identity_at(4, m, found);
    let reply = Proposals::Reply(transforms);
    let written = put_longer(buffer, own, id, reply, set, first, second);
    // Never: no part is too long.
    let Some(size) = written else {
        return 0;
    };
    size
}

// A set was chosen: the responder is Half, and writes message 2.
fn be_half(
    end: End,
    m: &[u8],
    found: u8,
    choice: Choice,
    sent: &mut [u8],
    got: &mut [u8],
    output: &mut [u8],
) -> Stepped
    requires { (length m.now ≤ 2048) × (found ≡ shape_of m.now) }
    ensures { halfway end m.now sent.old got.old output.old choice.set choice.transforms
        (set_numbered choice.set (body_at 1 m.now)) ≡
        after_step (stepped_told result) sent.new got.new output.new }
{
    let own = end.own;
    let id = be32(m, 20);
    let gotsize = m.len() as u16;
    let number = choice.set;
    let transforms = choice.transforms;
    let set = set_numbered(number, body_at(1, m));
    let agreed = agreed_one(own, number, transforms, set);
    put_bytes(got, 0, m);
    put_two(sent, own, transforms, set, m, found);
    let size = put_two(output, own, transforms, set, m, found);
    let progress = Progress {
        state: State::Half,
        sends: 1,
        id,
        sentsize: size,
        gotsize,
        agreed,
    };
    Stepped {
        end: End { progress, ..end },
        answer: StepAnswer::Send(size),
    }
}

// Message 1 at an Idle responder.
fn answer_one(
    end: End,
    m: &[u8],
    found: u8,
    sent: &mut [u8],
    got: &mut [u8],
    output: &mut [u8],
) -> Stepped
    requires { (length m.now ≤ 2048) × (found ≡ shape_of m.now) }
    ensures { at_responder end m.now sent.old got.old output.old Idle ≡
        after_step (stepped_told result) sent.new got.new output.new }
{
    if !is_longer(found) {
        return refuse(end, Refusal::CallUnexpected);
    }
    let own = end.own;
    let book = front(&own.book, own.booksize as usize);
    match choose_from(32, book, body_at(1, m)) {
        Ok(choice) => be_half(end, m, found, choice, sent, got, output),
        Err(refusal) => refuse(end, refusal),
    }
}

// A message at a Half responder: message 1 again, or message 3.
fn at_half(end: End, m: &[u8], found: u8, sent: &[u8], got: &[u8], output: &mut [u8]) -> Stepped
    requires { found ≡ shape_of m.now }
    ensures { at_responder end m.now sent.now got.now output.old Half ≡
        after_step (stepped_told result) sent.now got.now output.new }
{
    let progress = end.progress;
    if alike(m, kept(progress.gotsize, got)) {
        return repeat(end, sent, output);
    }
    if found == 1 {
        return Stepped {
            end: End {
                progress: with_state(State::Open, progress),
                ..end
            },
            answer: StepAnswer::Nothing,
        };
    }
    refuse(end, Refusal::CallUnexpected)
}

fn at_responder(
    end: End,
    m: &[u8],
    found: u8,
    sent: &mut [u8],
    got: &mut [u8],
    output: &mut [u8],
) -> Stepped
    requires { (length m.now ≤ 2048) × (found ≡ shape_of m.now) }
    ensures { at_responder end m.now sent.old got.old output.old end.progress.state ≡
        after_step (stepped_told result) sent.new got.new output.new }
{
    let progress = end.progress;
    let state = progress.state;
    match state {
        State::Idle => answer_one(end, m, found, sent, got, output),
        State::Half => at_half(end, m, found, sent, got, output),
        State::Open => {
            if alike(m, kept(progress.gotsize, got)) | (found == 1) {
                return Stepped {
                    end,
                    answer: StepAnswer::Nothing,
                };
            }
            refuse(end, Refusal::CallUnexpected)
        }
        State::Sent | State::GivenUp => refuse(end, Refusal::CallUnexpected),
    }
}

// A message arrives; holds says that its hash holds.
pub fn deliver(
    end: End,
    holds: bool,
    m: &[u8],
    sent: &mut [u8],
    got: &mut [u8],
    output: &mut [u8],
) -> Stepped
    ensures { delivered end holds m.now sent.old got.old output.old ≡
        after_step (stepped_told result) sent.new got.new output.new }
{
    let own = end.own;
    let progress = end.progress;
    let state = progress.state;
    if let Err(refusal) = early_code(state, holds, small(sent, got, output)) {
        return refuse(end, refusal);
    }
    let read = message_chain::read(m);
    if let Err(refusal) = read_code(own, state, progress.id, m, read) {
        return refuse(end, refusal);
    }
    let found = shape(count_of(read), m);
    if is_initiator(own.role) {
        return at_initiator(end, m, found, sent, got, output);
    }
    at_responder(end, m, found, sent, got, output)
}
