//! The records and blocks of an input: taken in one step where its buffer has the whole of one, else read in parts.

ghost use Rattle.std.specs.Prelude.{◌≡◌, ◌≤◌, ◌↔◌, ◌⊎◌, ℕ, List, IfOk, IfErr, IsTrue, OnOk, length, take};
ghost use Rattle.capture.specs.private.Reader.{Reads};
ghost use Rattle.capture.specs.Unit.{Form};
ghost use Rattle.capture.specs.private.Unit.{UnitReads, IfRead};

use crate::ending::{Ending, Fault};
use crate::order::Order;
use crate::reader::{look, read_onto, skip};
use std::io::BufRead;

/// The head of a record or a block, which says how long that is.
pub trait UnitHead: Copy + Drop {
    ghost LEN: { ℕ };

    /// The format of the heads of this kind.
    ghost form: { Form Self };

    /// Its length in bytes.
    const LEN: usize;

    /// The head at the start of the octets. Refused where the capture ends at it.
    fn of(order: Order, octets: &[u8]) -> Result<Self, Ending>
        ensures sound { IfOk result (λ h. form.IsHead order octets.now h) }
        ensures there { OnOk result (LEN ≤ length octets.now) }
        ensures least { IfOk result (λ h. LEN ≤ form.unit_len h) }
        ensures most { IfOk result (λ h. form.unit_len h ≤ usize.MAX) }
        ensures ends { IfErr result (λ ending. form.HeadEnds order octets.now ending) };

    /// The bytes of the record or block, with the head.
    fn unit_len(&self) -> usize
        requires { form.unit_len self.now ≤ usize.MAX }
        ensures { result ≡ form.unit_len self.now };

    /// Whether such records or blocks are read, and not passed over.
    fn is_read(&self) -> bool
        ensures { IsTrue result ↔ form.IsRead self.now };
}

/// A record or a block that was read last, or passed over.
#[derive(Debug, PartialEq, Eq, Clone, Copy)]
pub enum Taken<H> {
    /// It was passed over.
    Passed(H),
    /// Its octets were read.
    Read(H),
    /// Nothing more is read.
    Ended(Ending),
}

/// Reads the octets of the next record or block, of which some may have been read, or passes over it.
#[inline]
pub fn read_unit<R: BufRead, H: UnitHead>(
    input: &mut R,
    octets: &mut Vec<u8>,
    order: Order,
) -> Result<Taken<H>, Fault>
    requires { length octets.old.items ≤ H.LEN }
    ensures reads { IfOk result (λ taken. (all : List ℕ) (done : ℕ) → done ≤ H.LEN
        → Reads all (R.remaining input.old) octets.old.items done
        → UnitReads H.LEN H.form order all taken octets.new.items (R.remaining input.new)) }
    ensures whole { IfOk result (λ taken. IfRead taken (λ h. H.LEN ≤ length octets.new.items)) }
    ensures len { IfOk result (λ taken. IfRead taken (λ h. length octets.new.items ≡ H.form.unit_len h)) }
    ensures fault { IfErr result (λ fault. (fault ≡ Fault.Read) ⊎ (fault ≡ Fault.Memory)) }
{
    if !octets.as_slice().is_empty() {
        return read_record_parts(input, octets, order);
    }
    let Some(shown) = look(input)? else {
        return read_record_parts(input, octets, order);
    };
    if shown.is_empty() {
        return Ok(Taken::Ended(Ending::Whole));
    }
    let Some(front) = shown.get(..H::LEN) else {
        return read_record_parts(input, octets, order);
    };
    let Ok(head) = H::of(order, front) else {
        return read_record_parts(input, octets, order);
    };
    let len = head.unit_len();
    if shown.len() < len {
        return read_rest(input, octets, head);
    }
    let is_read = head.is_read();
    if is_read {
        let Ok(()) = octets.extend_from_slice(&shown[..len]) else {
            return Err(Fault::Memory);
        };
    }
    input.consume(len);
    Ok(if is_read {
        Taken::Read(head)
    } else {
        Taken::Passed(head)
    })
}

// Reads the octets of the next record or block, its head first and then the rest, or passes over it.
fn read_record_parts<R: BufRead, H: UnitHead>(
    input: &mut R,
    octets: &mut Vec<u8>,
    order: Order,
) -> Result<Taken<H>, Fault>
    requires { length octets.old.items ≤ H.LEN }
    ensures reads { IfOk result (λ taken. (all : List ℕ) (done : ℕ) → done ≤ H.LEN
        → Reads all (R.remaining input.old) octets.old.items done
        → UnitReads H.LEN H.form order all taken octets.new.items (R.remaining input.new)) }
    ensures whole { IfOk result (λ taken. IfRead taken (λ h. H.LEN ≤ length octets.new.items)) }
    ensures len { IfOk result (λ taken. IfRead taken (λ h. length octets.new.items ≡ H.form.unit_len h)) }
    ensures fault { IfErr result (λ fault. (fault ≡ Fault.Read) ⊎ (fault ≡ Fault.Memory)) }
{
    read_onto(input, octets, H::LEN)?;
    match H::of(order, octets.as_slice()) {
        Ok(head) => read_rest(input, octets, head),
        Err(ending) => Ok(Taken::Ended(ending)),
    }
}

// Reads what is missing of a record or block with this head, or passes over it.
fn read_rest<R: BufRead, H: UnitHead>(
    input: &mut R,
    octets: &mut Vec<u8>,
    head: H,
) -> Result<Taken<H>, Fault>
    requires least { H.LEN ≤ H.form.unit_len head }
    requires most { H.form.unit_len head ≤ usize.MAX }
    requires front { length octets.old.items ≤ H.form.unit_len head }
    ensures reads { IfOk result (λ taken. (order : Order) (all : List ℕ)
        → Reads all (R.remaining input.old) octets.old.items (length octets.old.items)
        → H.form.IsHead order (take H.LEN all) head
        → UnitReads H.LEN H.form order all taken octets.new.items (R.remaining input.new)) }
    ensures whole { IfOk result (λ taken. IfRead taken (λ h. H.LEN ≤ length octets.new.items)) }
    ensures len { IfOk result (λ taken. IfRead taken (λ h. length octets.new.items ≡ H.form.unit_len h)) }
    ensures fault { IfErr result (λ fault. (fault ≡ Fault.Read) ⊎ (fault ≡ Fault.Memory)) }
{
    let len = head.unit_len();
    if !head.is_read() {
        let whole = skip(input, len - octets.as_slice().len())?;
        if !whole {
            return Ok(Taken::Ended(Ending::Cut));
        }
        return Ok(Taken::Passed(head));
    }
    read_onto(input, octets, len)?;
    if octets.as_slice().len() < len {
        return Ok(Taken::Ended(Ending::Cut));
    }
    Ok(Taken::Read(head))
}
