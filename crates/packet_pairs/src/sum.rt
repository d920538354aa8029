//! The sums of keys: keys that are equal have the same sum, and most others have another.

ghost use Rattle.std.specs.Prelude.{◌≡◌};
ghost use Rattle.packet_pairs.specs.Key.{key_of};
ghost use Rattle.packet_pairs.specs.private.Sums.{mix, mix_addresses, mix_way, pair, sum_of, tail_of};
ghost use Rattle.wirebase.specs.Ipv6Address.{octets_of};

use crate::key::{Key, Way};
use frame_wire::Addresses;
use wirebase::Ipv6Address;

// An odd number whose bits are spread: 2 ^ 32 divided by the golden ratio.
const MULTIPLIER: u32 = 2_654_435_761;

impl Key {
    // The sum of this key. The name of a question is left out: its number, ports and addresses tell most questions
    // apart.
    pub(crate) fn sum(&self) -> u32
        ensures { result ≡ sum_of (key_of self.now) }
    {
        match self {
            Key::Name(key) => mix_way(key.transaction_id as u32, &key.way),
            Key::Netbios(key) => mix_way(key.transaction_id as u32, &key.way),
            Key::Echo(key) => mix_addresses(pair(key.ident, key.seq_no), &key.addresses),
            Key::Neighbor(key) => mix(tail_of(&key.asker), tail_of(&key.target)),
            Key::Lease(key) => key.transaction_id,
        }
    }
}

// Who asks whom, mixed into a sum.
fn mix_way(sum: u32, way: &Way) -> u32
    ensures { result ≡ mix_way sum way.now }
{
    let sum = mix(sum, pair(way.asker_port, way.answerer_port));
    mix_addresses(sum, &way.addresses)
}

// Addresses mixed into a sum.
#[tactic(auto, unfolding(crate::specs::private::Sums::number_of))]
fn mix_addresses(sum: u32, addresses: &Addresses) -> u32
    ensures { result ≡ mix_addresses sum addresses.now }
{
    match addresses {
        Addresses::V4(asker, answerer) => {
            let sum = mix(sum, u32::from_be_bytes(asker.octets()));
            mix(sum, u32::from_be_bytes(answerer.octets()))
        }
        Addresses::V6(asker, answerer) => mix(mix(sum, tail_of(asker)), tail_of(answerer)),
    }
}

// The last four octets of an address, as a number.
#[tactic(auto, unfolding(crate::specs::private::Sums::number_of, crate::specs::private::Sums::tail_of))]
fn tail_of(address: &Ipv6Address) -> u32
    ensures { result ≡ tail_of (octets_of address.now) }
{
    let octets = address.octets();
    u32::from_be_bytes([octets[12], octets[13], octets[14], octets[15]])
}

// Two numbers as one.
#[tactic(auto, unfolding(crate::specs::private::Sums::pair))]
fn pair(high: u16, low: u16) -> u32
    ensures { result ≡ pair high low }
{
    high as u32 * 0x1_0000 + low as u32
}

// One number more mixed into a sum.
#[tactic(auto, unfolding(crate::specs::private::Sums::mix))]
fn mix(sum: u32, number: u32) -> u32
    ensures { result ≡ mix sum number }
{
    sum.wrapping_mul(MULTIPLIER).wrapping_add(number)
}
