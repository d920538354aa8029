//! Times in ascending order.

ghost use Rattle.std.specs.Prelude.{◌≡◌, ◌≤◌, length};
ghost use Rattle.std.specs.List.{insert};
ghost use Rattle.packet_stats.specs.Row.{with_time};

// The place of a time among others that ascend.
pub(crate) fn place_in(times: &[u64], time: u64) -> usize
    ensures within { result ≤ length times.now }
    ensures place { insert times.now result time ≡ with_time time times.now }
{
    for (place, kept) in times.iter().enumerate() {
        if time < *kept {
            return place;
        }
    }
    times.len()
}
