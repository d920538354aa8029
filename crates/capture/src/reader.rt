//! Reading of an input in blocks of bounded size.

ghost use Rattle.std.specs.Prelude.{◌≡◌, ◌≤◌, ◌-◌, ◌++◌, ◌⊎◌, ℕ, List, [], IfOk, IfErr, IfSome, OnOk, length};
ghost use Rattle.std.specs.Borrow.{sem};
ghost use Rattle.std.specs.Io.{StartsWith};
ghost use Rattle.std.specs.Io.BufRead.{Rests};
ghost use Rattle.capture.specs.private.Reader.{Takes, TakesPart, Skips, SkipsPart, LookKeeps};

use crate::ending::Fault;
use std::io::{BufRead, ErrorKind};

/// Reads until there are this many octets, or the input has ended. Does not read where there are enough already.
pub fn read_onto<R: BufRead>(input: &mut R, octets: &mut Vec<u8>, count: usize) -> Result<(), Fault>
    requires { length octets.old.items ≤ count }
    ensures fills { OnOk result ((taken : List ℕ) × (octets.new.items ≡ octets.old.items ++ taken)
        × Takes (R.remaining input.old) (R.remaining input.new) taken (count - length octets.old.items)) }
    ensures fault { IfErr result (λ fault. (fault ≡ Fault.Read) ⊎ (fault ≡ Fault.Memory)) }
{
    if octets.as_slice().len() == count {
        return Ok(());
    }
    // A bound that no input reaches: each loop has to end.
    'parts: for _ in 0..u64::MAX {
        let missing = count - octets.as_slice().len();
        let ended = take_part(input, octets, missing)?;
        if ended {
            return Ok(());
        }
    }
    Err(Fault::Read)
}

// Takes buffered octets up to this many, and returns whether these are all or the input has ended.
fn take_part<R: BufRead>(input: &mut R, octets: &mut Vec<u8>, missing: usize) -> Result<bool, Fault>
    ensures part { IfOk result (λ ended. TakesPart (R.remaining input.old) (R.remaining input.new)
        octets.old.items octets.new.items missing ended) }
    ensures fault { IfErr result (λ fault. (fault ≡ Fault.Read) ⊎ (fault ≡ Fault.Memory)) }
{
    let Some(shown) = look(input)? else {
        return Ok(false);
    };
    let count = shown.len().min(missing);
    let Ok(()) = octets.extend_from_slice(&shown[..count]) else {
        return Err(Fault::Memory);
    };
    let ended = count == missing || shown.is_empty();
    input.consume(count);
    Ok(ended)
}

/// Passes over this many octets, or over all where there are fewer, and returns whether there were enough.
pub fn skip<R: BufRead>(input: &mut R, count: usize) -> Result<bool, Fault>
    ensures skips { IfOk result (λ whole. Skips (R.remaining input.old) (R.remaining input.new) count whole) }
    ensures fault { IfErr result (λ fault. fault ≡ Fault.Read) }
{
    let mut missing = count;
    // A bound that no input reaches: each loop has to end.
    'parts: for _ in 0..u64::MAX {
        let (skipped, ended) = skip_part(input, missing)?;
        missing -= skipped;
        if ended {
            return Ok(missing == 0);
        }
    }
    Err(Fault::Read)
}

// Passes over buffered octets up to this many; returns their number, and whether they are all or the input has ended.
fn skip_part<R: BufRead>(input: &mut R, missing: usize) -> Result<(usize, bool), Fault>
    ensures part { IfOk result (λ answer. SkipsPart (R.remaining input.old) (R.remaining input.new) missing
        answer.0 answer.1) }
    ensures fault { IfErr result (λ fault. fault ≡ Fault.Read) }
{
    let Some(shown) = look(input)? else {
        return Ok((0, false));
    };
    let len = shown.len();
    let count = len.min(missing);
    input.consume(count);
    Ok((count, count == missing || len == 0))
}

/// The octets in the input's buffer, or none where the read was interrupted and is to be tried again.
pub fn look<R: BufRead>(input: &mut R) -> Result<Option<&[u8]>, Fault>
    ensures front { IfSome (R.remaining input.old) (λ xs. IfOk result (λ shown. IfSome shown (λ s.
        StartsWith xs s.now))) }
    ensures end { IfSome (R.remaining input.old) (λ xs. IfOk result (λ shown. IfSome shown (λ s.
        length s.now ≡ 0 → xs ≡ []))) }
    ensures* after_borrow { sem 𝓛 (Rests R.row input.entry (λ new.
        LookKeeps (R.remaining input.old) (R.remaining new) (R.consumable_len new) result)) }
    ensures fault { IfErr result (λ fault. fault ≡ Fault.Read) }
{
    match input.fill_buf() {
        Ok(shown) => Ok(Some(shown)),
        Err(error) if error.kind() == ErrorKind::Interrupted => Ok(None),
        Err(error) => Err(Fault::from(error)),
    }
}
