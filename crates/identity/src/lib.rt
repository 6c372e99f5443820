// The body of an identification payload: type, protocol, port, data. Exchange and type are numbers, since every function answers for any.
#![tactic(auto)]

ghost use Rattle.std.specs.Prelude.{◌≡◌};
ghost use Rattle.refusal.specs.Numbers.{coded};
ghost use Rattle.identity.specs.Identity.{one_to255, main_data, quick_data, port_zero, lawful, identity_code};

use der::{is_element, is_name};
use refusal::Refusal;
use wire_read::{after, be16, byte};

fn one_to_255(n: usize) -> bool
    ensures { result ≡ one_to255 n }
{
    (1 <= n) & (n <= 255)
}

// Whether the data of an identity in exchange 2 is as its type asks.
fn main_data(identitytype: u8, s: &[u8]) -> bool
    ensures { result ≡ main_data identitytype s.now }
{
    match identitytype {
        1 => s.len() == 4,
        5 => s.len() == 16,
        2 => one_to_255(s.len()),
        3 => one_to_255(s.len()),
        11 => one_to_255(s.len()),
        9 => is_name(s),
        10 => is_element(s),
        _ => false,
    }
}

// The same in exchange 32.
fn quick_data(identitytype: u8, s: &[u8]) -> bool
    ensures { result ≡ quick_data identitytype s.now }
{
    match identitytype {
        1 => s.len() == 4,
        4 => s.len() == 8,
        5 => s.len() == 16,
        6 => s.len() == 32,
        7 => s.len() == 8,
        8 => s.len() == 32,
        _ => false,
    }
}

fn port_zero(s: &[u8]) -> bool
    ensures { result ≡ port_zero s.now }
{
    (byte(s, 1) == 0) & (be16(s, 2) == 0)
}

fn lawful(exchange: u8, s: &[u8]) -> bool
    ensures { result ≡ lawful exchange s.now }
{
    match exchange {
        2 => port_zero(s) & main_data(byte(s, 0), after(s, 4)),
        32 => quick_data(byte(s, 0), after(s, 4)),
        _ => false,
    }
}

// 0 where the body is a lawful identity in the exchange, else 18.
pub fn identity_code(exchange: u8, s: &[u8]) -> Result<(), Refusal>
    ensures { coded result ≡ identity_code exchange s.now }
{
    if (4 <= s.len()) & lawful(exchange, s) {
        Ok(())
    } else {
        Err(Refusal::InvalidIdInformation)
    }
}
