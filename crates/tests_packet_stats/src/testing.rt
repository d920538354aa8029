// What the tests compare by, over one macro of std: the prover goes through the code of a macro again wherever it is
// used, and through a call of these in a sixth of the time. They take the test's runtime, so they can't be in one
// library for all tests: the gate refuses a public function that may end the process.

use std::fmt::Debug;
use std::process::Abort;

// Ends the test where the two differ, and says what they are of.
pub(crate) fn same_of<T: PartialEq + Debug + Drop>(
    rt: &impl Abort,
    of: impl Debug + Drop,
    left: T,
    right: T,
) {
    assert!(rt; left == right, "{of:?}: {left:?} is not {right:?}");
}
