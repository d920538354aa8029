//! The sums of subjects: subjects that are equal have the same sum, and most others have another.

ghost use Rattle.std.specs.Prelude.{◌≡◌, length, map};
ghost use Rattle.packet_stats.specs.Subject.{subject_of};
ghost use Rattle.packet_stats.specs.private.Sums.{mix, sum_in, sum_of};

use crate::row::Row;
use crate::subject::Subject;

// An odd number whose bits are spread: 2 ^ 32 divided by the golden ratio.
const MULTIPLIER: u32 = 2_654_435_761;

impl Subject {
    // The sum of this subject.
    pub(crate) fn sum(&self) -> u32
        ensures { result ≡ sum_of (subject_of self.now) }
    {
        let mut sum = 0;
        for octet in self.place().as_slice() {
            sum = mix(sum, *octet);
        }
        sum
    }
}

// One octet more mixed into a sum.
#[tactic(auto, unfolding(crate::specs::private::Sums::mix))]
fn mix(sum: u32, octet: u8) -> u32
    ensures { result ≡ mix sum octet }
{
    sum.wrapping_mul(MULTIPLIER).wrapping_add(octet as u32)
}

// Sums up each row again, where they stand in another order.
pub(crate) fn sum_again(rows: &[Row], sums: &mut [u32])
    requires { length sums.old ≡ length rows.now }
    ensures { sums.new ≡ map sum_in rows.now }
{
    for place in 0..rows.len() {
        sums[place] = rows[place].subject.sum();
    }
}
