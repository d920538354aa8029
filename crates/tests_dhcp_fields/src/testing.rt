// What the tests compare by, over one macro of std: the prover goes through the code of a macro again wherever it is
// used, and through a call of these in a sixth of the time. They take the test's runtime, so they can't be in one
// library for all tests: the gate refuses a public function that may end the process.

ghost use Rattle.std.specs.Prelude.{◌≡◌, true};

use dhcp_fields::{Refusal, show_dhcp};
use packet_fields::Form;
use std::alloc::Global;
use std::fmt::Debug;
use std::process::Abort;

// Ends the test where the two differ, and says what they are of.
pub(crate) fn same_of<T: PartialEq + Debug + Drop>(
    rt: &impl Abort,
    of: impl Debug + Drop,
    left: T,
    right: T,
)
    ensures { T.eq left right ≡ true }
{
    assert!(rt; left == right, "{of:?}: {left:?} is not {right:?}");
}

// Ends the test where this does not hold, and says what it was to hold of.
pub(crate) fn holds_of(rt: &impl Abort, of: impl Debug + Drop, is_so: bool)
    ensures { is_so ≡ true }
{
    same_of(rt, of, is_so, true);
}

// The octets of these parts, one after another.
pub(crate) fn joined(rt: &impl Abort, alloc: Global, parts: &[&[u8]]) -> Vec<u8> {
    let mut octets = Vec::new(alloc);
    for part in parts {
        holds_of(rt, part, octets.extend_from_slice(part).is_ok());
    }
    octets
}

// Compares what a packet prints in a form, and why it can't be read whole.
pub(crate) fn prints(
    rt: &impl Abort,
    alloc: Global,
    form: Form,
    octets: &[u8],
    text: &[u8],
    refused: Option<Refusal>,
) {
    let mut output = Vec::new(alloc);
    match show_dhcp(&mut output, form, octets) {
        Ok(told) => same_of(rt, octets, told, refused),
        Err(_) => holds_of(rt, octets, false),
    }
    same_of(rt, octets, output.as_slice(), text);
}
