// The receive record of one life: the highest accepted number, and which of the 64 numbers up to it were accepted. It goes in by
// value and comes back; `step_in_place` is the same step where the caller's record stands.
#![tactic(auto)]

ghost use Rattle.std.specs.Prelude.{◌≡◌, ◌<◌, ◌≤◌};
ghost use Rattle.sequence_record.specs.Receive.{new_receive, behind, shifted, judged, loss_line};
ghost use Rattle.sequence_record.specs.Verdict.{verdict_told, judged_told};

use refusal::Refusal;

// A number's place in the window is how far it lies below the highest: bit 0 of the window is the highest itself.
#[repr(C)]
#[derive(Clone, Copy, Debug, PartialEq, Eq)]
pub struct Receive {
    pub highest: u64,
    pub window: u64,
}

// By how much the highest number rose, 0 where it did not; or why the number is refused.
pub type Verdict<R = Refusal> = Result<u64, R>;

// A step's verdict, and the record after it.
#[derive(Clone, Copy, Debug, PartialEq, Eq)]
pub struct Judged {
    pub receive: Receive,
    pub verdict: Verdict,
}

#[derive(Clone, Copy, Debug, PartialEq, Eq)]
pub struct LossLine {
    pub highest: u64,
    pub span: u64,
    pub count: u32,
}

// The record with which a life begins. Theorems name it, and `Default` would say it twice.
pub fn new_receive() -> Receive
    ensures { result ≡ new_receive }
{
    Receive {
        highest: 0,
        window: 0,
    }
}

// Whether a number is 0, or so far below the highest that the window no longer has its place.
pub fn behind(highest: u64, number: u32) -> bool
    ensures { result ≡ behind highest number }
{
    (number == 0) | (number as u64 + 64 <= highest)
}

// The window moved up by so many places; what goes past its end is dropped.
fn shifted(window: u64, places: u64) -> u64
    ensures { result ≡ shifted window places }
{
    if places < 64 { window << places } else { 0 }
}

// The step of a number above the highest, as most are: it is neither behind the window nor accepted before, so neither is tested.
fn step_above(r: Receive, number: u32, integrity: bool) -> Judged
    requires { r.highest < number }
    ensures { judged_told result ≡ judged r number integrity }
{
    let highest = r.highest;
    let window = r.window;
    let n = number as u64;
    if !integrity {
        return Judged {
            receive: r,
            verdict: Err(Refusal::AuthenticationFailed),
        };
    }
    let rise = n - highest;
    Judged {
        receive: Receive {
            highest: n,
            window: shifted(window, rise) + 1,
        },
        verdict: Ok(rise),
    }
}

// The step of any other number.
fn step_not_above(r: Receive, number: u32, integrity: bool) -> Judged
    requires { number ≤ r.highest }
    ensures { judged_told result ≡ judged r number integrity }
{
    let highest = r.highest;
    let window = r.window;
    if behind(highest, number) {
        return Judged {
            receive: r,
            verdict: Err(Refusal::BehindWindow),
        };
    }
    let place = highest - number as u64;
    let accepted_before = (window >> place) % 2 == 1;
    if accepted_before {
        return Judged {
            receive: r,
            verdict: Err(Refusal::AcceptedBefore),
        };
    }
    if !integrity {
        return Judged {
            receive: r,
            verdict: Err(Refusal::AuthenticationFailed),
        };
    }
    Judged {
        receive: Receive {
            highest,
            window: window + (1 << place),
        },
        verdict: Ok(0),
    }
}

// What a packet with this number does to the record; integrity is what the caller says of it.
pub fn step(r: Receive, number: u32, integrity: bool) -> Judged
    ensures { judged_told result ≡ judged r number integrity }
{
    let highest = r.highest;
    // By a return and not an else: compiled so, the two ways stay apart to the end, and a step is a fifth shorter.
    if highest < number as u64 {
        return step_above(r, number, integrity);
    }
    step_not_above(r, number, integrity)
}

// The highest number, how many of the last numbers are looked at, and how many of those were accepted.
pub fn loss_line(r: Receive) -> LossLine
    ensures { result ≡ loss_line r }
{
    let highest = r.highest;
    let window = r.window;
    LossLine {
        highest,
        span: highest.min(64),
        count: window.count_ones(),
    }
}

// The step where the caller's record stands: it is brought up to date, and the verdict comes back.
pub fn step_in_place(r: &mut Receive, number: u32, integrity: bool) -> Verdict
    ensures { judged r.old number integrity ≡ record { receive = r.new; verdict = verdict_told result } }
{
    let j = step(*r, number, integrity);
    *r = j.receive;
    j.verdict
}

// The same step by the lent call, for a caller that holds the record by value.
pub fn step_lent(r: Receive, number: u32, integrity: bool) -> Judged
    ensures { judged_told result ≡ judged r number integrity }
{
    let mut lent = r;
    let verdict = step_in_place(&mut lent, number, integrity);
    Judged {
        receive: lent,
        verdict,
    }
}
