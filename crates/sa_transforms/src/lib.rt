// The transforms of a proposal. A slice begins at a transform.
#![tactic(auto)]

ghost use Rattle.std.specs.Prelude.{◌≡◌};
ghost use Rattle.refusal.specs.Numbers.{coded};
ghost use Rattle.sa_transforms.specs.Transforms.{next_wanted, transform_wrong, transform_code, transforms_code};

use refusal::Refusal;
use sa_coding::attributes_code;
use wire_read::{after, be16, byte, front};

fn next_wanted(left: u8) -> u8
    ensures { result ≡ next_wanted left }
{
    if left == 0 { 0 } else { 3 }
}

fn transform_wrong(left: u8, s: &[u8]) -> bool
    ensures { result ≡ transform_wrong left s.now }
{
    let n = be16(s, 2) as usize;
    (s.len() < 8)
        | (byte(s, 0) != next_wanted(left))
        | (byte(s, 1) != 0)
        | (be16(s, 6) != 0)
        | (n < 8)
        | (s.len() < n)
}

fn transform_code(exchange: u8, left: u8, least: u16, s: &[u8]) -> Result<(), Refusal>
    ensures { coded result ≡ transform_code exchange left least s.now }
{
    if transform_wrong(left, s) {
        return Err(Refusal::BadProposalSyntax);
    }
    if (byte(s, 4) as u16) < least {
        return Err(Refusal::BadProposalSyntax);
    }
    attributes_code(exchange, after(front(s, be16(s, 2) as usize), 8))
}

// So many transforms and nothing left over, of which the first has at least this number.
pub fn transforms_code(count: u8, exchange: u8, least: u16, s: &[u8]) -> Result<(), Refusal>
    ensures { coded result ≡ transforms_code count exchange least s.now }
{
    if count == 0 {
        return if s.len() == 0 {
            Ok(())
        } else {
            Err(Refusal::BadProposalSyntax)
        };
    }
    transform_code(exchange, count - 1, least, s)?;
    transforms_code(
        count - 1,
        exchange,
        byte(s, 4) as u16 + 1,
        after(s, be16(s, 2) as usize),
    )
}
