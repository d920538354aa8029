//! The search for a question by its key.

ghost use Rattle.std.specs.Prelude.{◌≡◌, ◌==◌, ◌<◌, IfSome, IsNone, length, map};
ghost use Rattle.std.specs.List.{position_from};
ghost use Rattle.packet_pairs.specs.Key.{key_of};
ghost use Rattle.packet_pairs.specs.Pairs.{IsUnknown, asked_of};
ghost use Rattle.packet_pairs.specs.private.Places.{IsFoundAt};

use crate::key::Key;
use crate::pairs::Asked;
use std::collections::VecDeque;

// The place of the first question with this key.
pub(crate) fn find(questions: &VecDeque<Asked>, key: &Key) -> Option<usize>
    ensures some { IfSome result (IsFoundAt (key_of key.now) (map asked_of questions.now.items)) }
    ensures none { IsNone result → IsUnknown (key_of key.now) (map asked_of questions.now.items) }
{
    for place in 0..questions.len() {
        if questions[place].key.is(key) {
            return Some(place);
        }
    }
    None
}

// The place of the first sum that is this one. Most often there is none, which `contains` says several times faster
// than `position`.
pub(crate) fn place_of(sums: &VecDeque<u32>, sum: u32) -> Option<usize>
    ensures value { result ≡ position_from (λ other. other == sum) 0 sums.now.items }
    ensures bound { IfSome result (λ place. place < length sums.now.items) }
{
    if sums.contains(&sum) {
        return sums.iter().position(|other| *other == sum);
    }
    None
}
