//! Lists of what a host keeps for a time alone: entries with a key each, of which a new one takes the place of that
//! with its key, and which are dropped when their time is over.

ghost use Rattle.std.specs.Prelude.{◌≡◌, ◌<◌, ◌↔◌, ℕ, Bool, true, false, Option, IsTrue, IfSome};
ghost use Rattle.std.specs.Prelude.{length, take, slice_index_or};
ghost use Rattle.std.specs.List.{filter, filter_map, find};
ghost use Rattle.examples.specs.TimedList.{IsKept, renewed, without, has};

use arrayvec::ArrayVec;

/// An entry of such a list.
pub trait Entry: Copy + Default {
    /// What tells entries apart.
    type Key;

    /// Whether an entry is that of a key.
    ghost is_of: { Self.Key → Self → Bool };

    /// What is left of an entry when a time has passed.
    ghost after: { ℕ → Self → Option Self };

    /// Whether it is the entry of this key.
    fn is_of(&self, key: &Self::Key) -> bool
        ensures { result ≡ is_of key.now self.now };

    /// What is left of it when this time has passed. None where its time is over.
    fn after(&self, passed: u32) -> Option<Self>
        ensures { result ≡ after passed self.now };
}

/// The first entry of a key. None where there is none.
pub fn look_up<T: Entry>(entries: &[T], key: &T::Key) -> Option<T>
    ensures { result ≡ find (T.is_of key.now) entries.now }
{
    for entry in entries {
        if entry.is_of(key) {
            return Some(*entry);
        }
    }
    None
}

/// Puts an entry in the place of the first of the key, or behind all where there is none. False exactly where there is
/// none and the list is full; then it is unchanged.
pub fn renew<T: Entry, const N: usize>(entries: &mut ArrayVec<T, N>, key: &T::Key, entry: T) -> bool
    ensures told { IsTrue result ↔ IsKept N (T.is_of key.now) entries.old.items }
    ensures value { entries.new.items ≡ renewed N (T.is_of key.now) entry entries.old.items }
{
    if let Some(place) = place_of(entries.as_slice(), key) {
        entries.as_mut_slice()[place] = entry;
        return true;
    }
    if entries.is_full() {
        return false;
    }
    entries.push(entry);
    true
}

/// The entries of a key.
pub fn entries_of<T: Entry, const N: usize>(
    entries: &ArrayVec<T, N>,
    key: &T::Key,
) -> ArrayVec<T, N>
    ensures { result.items ≡ filter (T.is_of key.now) entries.now.items }
{
    let mut found = ArrayVec::new();
    for entry in entries.as_slice() {
        if entry.is_of(key) {
            found.push(*entry);
        }
    }
    found
}

/// Removes the entries of a key.
pub fn remove<T: Entry, const N: usize>(entries: &mut ArrayVec<T, N>, key: &T::Key)
    ensures { entries.new.items ≡ without (T.is_of key.now) entries.old.items }
{
    let mut kept = ArrayVec::new();
    for entry in entries.as_slice() {
        if !entry.is_of(key) {
            kept.push(*entry);
        }
    }
    *entries = kept;
}

/// Lets a time pass: each entry is what is left of it, and those whose time is over are dropped.
pub fn pass<T: Entry, const N: usize>(entries: &mut ArrayVec<T, N>, passed: u32)
    ensures { entries.new.items ≡ filter_map (T.after passed) entries.old.items }
{
    let mut kept = ArrayVec::new();
    for entry in entries.as_slice() {
        if let Some(left) = entry.after(passed) {
            kept.push(left);
        }
    }
    *entries = kept;
}

// The place of the first entry of a key.
fn place_of<T: Entry>(entries: &[T], key: &T::Key) -> Option<usize>
    ensures within { IfSome result (λ place. place < length entries.now) }
    ensures found { IfSome result (λ place. (d : T)
        → T.is_of key.now (slice_index_or entries.now place d) ≡ true) }
    ensures first { IfSome result (λ place. has (T.is_of key.now) (take place entries.now) ≡ false) }
    ensures missing { result ≡ None → has (T.is_of key.now) entries.now ≡ false }
{
    for (place, entry) in entries.iter().enumerate() {
        if entry.is_of(key) {
            return Some(place);
        }
    }
    None
}
