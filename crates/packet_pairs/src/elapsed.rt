//! The time from one packet to another.

ghost use Rattle.std.specs.Prelude.{◌≡◌};
ghost use Rattle.packet_pairs.specs.Pairs.{nanoseconds_between};

// The nanoseconds from one time to another, where both are known and the other is not before the one.
pub(crate) fn nanoseconds_between(before: Option<u64>, after: Option<u64>) -> Option<u64>
    ensures { result ≡ nanoseconds_between before after }
{
    match (before, after) {
        (Some(before), Some(after)) if before <= after => Some(after - before),
        _ => None,
    }
}
