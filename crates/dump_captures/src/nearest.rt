//! The known word that is nearest to one that is not known.

ghost use Rattle.std.specs.Prelude.{◌≡◌, IfErr, IfOk, map};
ghost use Rattle.std.specs.Option.{option_map};
ghost use Rattle.dump_captures.specs.Nearest.{most_changes, nearest};

use crate::Fault;
use std::alloc::Global;
use strsim::levenshtein;

/// The first of the known words that are nearest to this one, where it is near enough to be what was meant.
pub fn nearest(
    alloc: Global,
    word: &str,
    known: &[&'static str],
) -> Result<Option<&'static str>, Fault>
    ensures found { IfOk result (λ found. option_map (λ other. other.now) found
        ≡ nearest word.now (map (λ other. other.now) known.now)) }
    ensures fault { IfErr result (λ fault. fault ≡ Fault.Memory) }
{
    let mut bound = most_changes(word.len()) + 1;
    let mut found = None;
    for other in known {
        let Ok(distance) = levenshtein(alloc, word, other) else {
            return Err(Fault::Memory);
        };
        if distance < bound {
            bound = distance;
            found = Some(*other);
        }
    }
    Ok(found)
}

// How many characters may be others in what was meant by a word of this length.
fn most_changes(len: usize) -> usize
    ensures { result ≡ most_changes len }
{
    (len / 2).min((len / 3).max(2))
}
