// What the tests compare by, over one macro of std: the prover goes through the code of a macro again wherever it is
// used, and through a call of these in a sixth of the time. They take the test's runtime, so they can't be in one
// library for all tests: the gate refuses a public function that may end the process.

ghost use Rattle.std.specs.Prelude.{◌≡◌, true};

use std::alloc::Global;
use std::fmt::{self, Debug, Display, Write};
use std::process::Abort;

// Ends the test where the two differ.
pub(crate) fn same<T: PartialEq + Debug + Drop>(rt: &impl Abort, left: T, right: T)
    ensures { T.eq left right ≡ true }
{
    same_of(rt, (), left, right);
}

// Ends the test where the two differ, and says what they are of.
pub(crate) fn same_of<T: PartialEq + Debug + Drop>(
    rt: &impl Abort,
    of: impl Debug + Drop,
    left: T,
    right: T,
)
    ensures { T.eq left right ≡ true }
{
    assert!(rt; left == right, "{of:?}: {left:?} is not {right:?}");
}

// Ends the test where the value prints another text, or where there is no memory for it.
pub(crate) fn prints(rt: &impl Abort, alloc: Global, value: &impl Display, text: &str) {
    let printed = value.to_string(alloc).ok();
    same(rt, printed.as_deref(), Some(text));
}

// A writer that takes so many writes, and fails at the one after them.
#[derive(Drop)]
struct FailingWriter {
    left: u32,
}

impl Write for FailingWriter {
    fn write_str(&mut self, _text: &str) -> fmt::Result {
        if self.left == 0 {
            return Err(fmt::Error);
        }
        self.left -= 1;
        Ok(())
    }
}

// Whether the value is printed by a writer that takes so many writes.
fn is_printed(value: &impl Display, writes: u32) -> bool {
    let mut writer = FailingWriter { left: writes };
    write!(writer, "{value}").is_ok()
}

// Ends the test unless the value is printed in so many writes, and fails where its writer refuses one of them.
pub(crate) fn takes_writes(rt: &impl Abort, value: &impl Display, writes: u32) {
    for left in 0..=writes {
        same_of(rt, left, is_printed(value, left), left == writes);
    }
}
