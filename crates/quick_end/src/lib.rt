// What an end is, what it is asked, and a fresh one.
#![tactic(auto)]

ghost use Rattle.std.specs.Prelude.{◌≡◌, ◌≤◌, length};
ghost use Rattle.refusal.specs.Numbers.{coded};
ghost use Rattle.quick_end.specs.Fresh.{is_idle, is_initiator, is_given_up, fresh_code, idle, own_of, made_told, fresh};

use policy_book::book_in_front;
use policy_choice::Transforms;
use policy_lines::book_size;
use refusal::Refusal;
use sa_fields::{ProposalNumber, TransformNumber};
use wire_write::put_bytes;

#[derive(Clone, Copy, Debug, PartialEq, Eq)]
pub enum Role {
    Initiator,
    Responder,
}

#[derive(Clone, Copy, Debug, PartialEq, Eq)]
pub enum State {
    Idle,
    Sent,
    Half,
    Open,
    GivenUp,
}

// What an end is given once: cookies, its SPIs, and the first bytes of two arrays as its book and its nonce: an end has a fixed size, so
// that C lends it.
#[derive(Clone, Copy)]
pub struct Own {
    pub role: Role,
    pub icookie: u64,
    pub rcookie: u64,
    pub ah: u32,
    pub esp: u32,
    pub booksize: u8,
    pub book: [u8; 82],
    pub noncesize: u16,
    pub nonce: [u8; 256],
}

// The SPIs of one side, in the order of the set's proposals.
#[derive(Clone, Copy)]
pub enum Spis {
    Alone(u32),
    Both(u32, u32),
}

// What both ends hold once it is agreed.
#[derive(Clone, Copy)]
pub struct Agreed {
    pub set: ProposalNumber,
    pub transforms: Transforms,
    pub initiator: Spis,
    pub responder: Spis,
}

// What changes: the state, how often the kept message was sent, the message ID, and how much of the kept buffers is a message.
#[derive(Clone, Copy)]
pub struct Progress {
    pub state: State,
    pub sends: u8,
    pub id: u32,
    pub sentsize: u16,
    pub gotsize: u16,
    pub agreed: Agreed,
}

#[derive(Clone, Copy)]
pub struct End {
    pub own: Own,
    pub progress: Progress,
}

// One comparison each; they stay functions, since each has a contract, a theorem and an edit of its own.
pub fn is_idle(state: State) -> bool
    ensures { result ≡ is_idle state }
{
    state == State::Idle
}

pub fn is_initiator(role: Role) -> bool
    ensures { result ≡ is_initiator role }
{
    role == Role::Initiator
}

pub fn is_given_up(state: State) -> bool
    ensures { result ≡ is_given_up state }
{
    state == State::GivenUp
}

fn fresh_code(
    icookie: u64,
    rcookie: u64,
    book: &[u8],
    ah: u32,
    esp: u32,
    nonce: &[u8],
) -> Result<(), Refusal>
    ensures { coded result ≡ fresh_code icookie rcookie book.now ah esp nonce.now }
{
    if (icookie == 0) | (rcookie == 0) {
        return Err(Refusal::InvalidCookie);
    }
    if !(book_in_front(book) & (book_size(book) as usize == book.len())) {
        return Err(Refusal::BookUnlawful);
    }
    if (ah < 256) | (esp < 256) {
        return Err(Refusal::InvalidSpi);
    }
    if !((8 <= nonce.len()) & (nonce.len() <= 256)) {
        return Err(Refusal::PayloadMalformed);
    }
    Ok(())
}

fn idle() -> Progress
    ensures { result ≡ idle }
{
    let agreed = Agreed {
        set: ProposalNumber(0),
        transforms: Transforms::One(TransformNumber(0)),
        initiator: Spis::Alone(0),
        responder: Spis::Alone(0),
    };
    Progress {
        state: State::Idle,
        sends: 0,
        id: 0,
        sentsize: 0,
        gotsize: 0,
        agreed,
    }
}

// A book and a nonce that passed the checks fit in their arrays.
fn own_of(
    role: Role,
    icookie: u64,
    rcookie: u64,
    book: &[u8],
    ah: u32,
    esp: u32,
    nonce: &[u8],
) -> Own
    requires { (length book.now ≤ 82) × (length nonce.now ≤ 256) }
    ensures { result ≡ own_of role icookie rcookie book.now ah esp nonce.now }
{
    let mut own_book = [0; 82];
    put_bytes(&mut own_book, 0, book);
    let mut own_nonce = [0; 256];
    put_bytes(&mut own_nonce, 0, nonce);
    Own {
        role,
        icookie,
        rcookie,
        ah,
        esp,
        booksize: book.len() as u8,
        book: own_book,
        noncesize: nonce.len() as u16,
        nonce: own_nonce,
    }
}

// Makes an end.
pub fn fresh(
    role: Role,
    icookie: u64,
    rcookie: u64,
    book: &[u8],
    ah: u32,
    esp: u32,
    nonce: &[u8],
) -> Result<End, Refusal>
    ensures { made_told role result ≡ fresh role icookie rcookie book.now ah esp nonce.now }
{
    fresh_code(icookie, rcookie, book, ah, esp, nonce)?;
    let own = own_of(role, icookie, rcookie, book, ah, esp, nonce);
    let progress = idle();
    Ok(End { own, progress })
}
