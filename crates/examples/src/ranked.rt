//! The best of several for a destination, by their ranks.

ghost use Rattle.std.specs.Prelude.{◌≡◌, ℕ};
ghost use Rattle.control_wire.specs.Ipv6AddressType.{Ipv6Address as AnyAddress};
ghost use Rattle.examples.specs.Ranked.{best_of, better_of};

use control_wire::Ipv6Address;

/// What has a rank for each destination.
pub trait Ranked: Copy {
    /// The rank for a destination.
    ghost rank: { AnyAddress → Self → ℕ };

    /// The rank for a destination: the higher, the better. 0 where it does not serve.
    fn rank(&self, destination: &Ipv6Address) -> u32
        ensures { result ≡ rank destination.now self.now };
}

/// The first of those with the highest rank for a destination. None where none serves.
pub fn best<T: Ranked>(entries: &[T], destination: &Ipv6Address) -> Option<T>
    ensures { result ≡ best_of (T.rank destination.now) entries.now }
{
    let mut best = None;
    for entry in entries {
        best = better(best, entry, destination);
    }
    best
}

// The one with the higher rank, or else the first.
fn better<T: Ranked>(first: Option<T>, second: &T, destination: &Ipv6Address) -> Option<T>
    ensures { result ≡ better_of (T.rank destination.now) first second.now }
{
    let rank = match &first {
        Some(first) => first.rank(destination),
        None => 0,
    };
    if rank < second.rank(destination) {
        Some(*second)
    } else {
        first
    }
}
