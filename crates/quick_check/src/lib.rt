// What the ends ask of a message that is delivered, from its reading on. Every function takes any bytes.
#![tactic(auto)]

ghost use Rattle.std.specs.Prelude.{◌≡◌, ◌&&◌, eqb, is_ok};
ghost use Rattle.refusal.specs.Numbers.{coded, coded_by};
ghost use Rattle.message_chain.specs.Message.{message_by};
ghost use Rattle.quick_check.specs.Checks.{cookies_not_own, quick_code, read_code};

use message_chain::Message;
use quick_end::{Own, State, is_idle, is_initiator};
use quick_shape::shape;
use refusal::{Numbered, Refusal};
use wire_read::{be32, be64, byte};

fn cookies_not_own(own: Own, m: &[u8]) -> bool
    ensures { result ≡ cookies_not_own own m.now }
{
    !((be64(m, 0) == own.icookie) & (be64(m, 8) == own.rcookie))
}

fn quick_code(
    own: Own,
    state: State,
    id: u32,
    exchange: u8,
    count: u8,
    m: &[u8],
) -> Result<(), Refusal>
    ensures { coded result ≡ quick_code own state id exchange count m.now }
{
    if exchange != 32 {
        return Err(Refusal::InvalidExchangeType);
    }
    if byte(m, 19) != 1 {
        return Err(Refusal::InvalidFlags);
    }
    let role = own.role;
    let idle = is_idle(state);
    if is_initiator(role) & idle {
        return Err(Refusal::CallUnexpected);
    }
    if cookies_not_own(own, m) {
        return Err(Refusal::InvalidCookie);
    }
    if !idle & (be32(m, 20) != id) {
        return Err(Refusal::InvalidMessageId);
    }
    if shape(count, m) == 0 {
        return Err(Refusal::PayloadMalformed);
    }
    if 2048 < m.len() {
        return Err(Refusal::UnequalPayloadLengths);
    }
    Ok(())
}

// The checks on a message from its reading on. What refused the reading is handed on, whatever its number.
pub fn read_code<R: Numbered>(
    own: Own,
    state: State,
    id: u32,
    m: &[u8],
    read: Result<Message, R>,
) -> Result<(), R>
    ensures numbered { coded_by R.numbered result ≡ read_code own state id m.now (message_by R.numbered read) }
    ensures passed { is_ok result ≡ (is_ok read && eqb (read_code own state id m.now (message_by R.numbered read)) 0) }
{
    let Message { exchange, count } = read?;
    match quick_code(own, state, id, exchange, count, m) {
        Ok(()) => Ok(()),
        Err(refusal) => Err(R::of(refusal)),
    }
}
