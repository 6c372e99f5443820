// The agreed values of a set: SPIs and transforms. Every function takes any bytes.
#![tactic(auto)]

ghost use Rattle.std.specs.Prelude.{◌≡◌};
ghost use Rattle.quick_agreed.specs.Agreed.{spis_of, transforms_in, spi_for, own_spis};

use policy_choice::Transforms;
use quick_end::Spis;
use sa_fields::{protocol, transform_number};
use sa_items::{proposal, proposal_count, transform};
use wire_read::be32;

// The SPIs of a set, in its order.
pub fn spis_of(s: &[u8]) -> Spis
    ensures { result ≡ spis_of s.now }
{
    let first = be32(proposal(0, s), 8);
    if proposal_count(s) == 1 {
        return Spis::Alone(first);
    }
    Spis::Both(first, be32(proposal(1, s), 8))
}

// The transforms of a reply, one of each proposal.
pub fn transforms_in(s: &[u8]) -> Transforms
    ensures { result ≡ transforms_in s.now }
{
    let first = transform_number(transform(0, proposal(0, s)));
    if proposal_count(s) == 1 {
        return Transforms::One(first);
    }
    Transforms::Two(first, transform_number(transform(0, proposal(1, s))))
}

fn spi_for(ah: u32, esp: u32, protocol: u8) -> u32
    ensures { result ≡ spi_for ah esp protocol }
{
    if protocol == 2 { ah } else { esp }
}

// The own SPIs for a set, in its order.
pub fn own_spis(ah: u32, esp: u32, s: &[u8]) -> Spis
    ensures { result ≡ own_spis ah esp s.now }
{
    let first = spi_for(ah, esp, protocol(proposal(0, s)));
    if proposal_count(s) == 1 {
        return Spis::Alone(first);
    }
    Spis::Both(first, spi_for(ah, esp, protocol(proposal(1, s))))
}
