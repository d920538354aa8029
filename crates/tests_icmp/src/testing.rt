// What the tests compare by, over one macro of std: the prover goes through the code of a macro again wherever it is
// used, and through a call of these in a sixth of the time. They take the test's runtime, so they can't be in one
// library for all tests: the gate refuses a public function that may end the process.

ghost use Rattle.std.specs.Prelude.{◌≡◌, true};

use std::alloc::Global;
use std::fmt::{self, Debug, Display, Write};
use std::process::Abort;
use wirebase::Result;

// Ends the test where the two differ.
pub(crate) fn same<T: PartialEq + Debug + Drop>(rt: &impl Abort, left: T, right: T)
    ensures { T.eq left right ≡ true }
{
    same_of(rt, (), left, right);
}

// Ends the test where the two differ, and says what they are of.
pub(crate) fn same_of<T: PartialEq + Debug + Drop>(
    rt: &impl Abort,
    of: impl Debug + Drop,
    left: T,
    right: T,
)
    ensures { T.eq left right ≡ true }
{
    assert!(rt; left == right, "{of:?}: {left:?} is not {right:?}");
}

// Ends the test where this does not hold, and says what it was to hold of.
pub(crate) fn holds_of(rt: &impl Abort, of: impl Debug + Drop, is_so: bool)
    ensures { is_so ≡ true }
{
    same_of(rt, of, is_so, true);
}

// Ends the test where the library reads something else than the plain reader. Over any type, for where the prover knows
// what a message is, it looks into each of its values.
pub(crate) fn agree<T: PartialEq + Debug + Drop>(
    rt: &impl Abort,
    octets: &[u8],
    read: &Result<T>,
    plain: &Option<T>,
) {
    same_of(rt, octets, read.as_ref().ok(), plain.as_ref());
}

// Ends the test where the value prints another text, or where there is no memory for it.
pub(crate) fn prints(rt: &impl Abort, alloc: Global, value: &impl Display, text: &str) {
    let printed = value.to_string(alloc).ok();
    same(rt, printed.as_deref(), Some(text));
}

// Ends the test where the value of one of these numbers prints another text than the one beside it.
pub(crate) fn prints_each<T: From<u8> + Display + Drop>(
    rt: &impl Abort,
    alloc: Global,
    rows: &[(u8, &str)],
) {
    for &(number, text) in rows {
        prints(rt, alloc, &T::from(number), text);
    }
}

// A writer that takes so many writes, and fails at the one after them.
#[derive(Drop)]
struct FailingWriter {
    left: u32,
}

impl Write for FailingWriter {
    fn write_str(&mut self, _text: &str) -> fmt::Result {
        if self.left == 0 {
            return Err(fmt::Error);
        }
        self.left -= 1;
        Ok(())
    }
}

// Whether the value is printed by a writer that takes so many writes.
fn is_printed(value: &impl Display, writes: u32) -> bool {
    let mut writer = FailingWriter { left: writes };
    write!(writer, "{value}").is_ok()
}

// Ends the test unless the value is printed in so many writes, and fails where its writer refuses one of them.
pub(crate) fn takes_writes(rt: &impl Abort, value: &impl Display, writes: u32) {
    for left in 0..=writes {
        same_of(rt, left, is_printed(value, left), left == writes);
    }
}

// Ends the test unless this was read. Over any type, as the one below: to compare messages costs the prover more where
// it knows what they are.
pub(crate) fn reads<T: PartialEq + Debug + Drop>(rt: &impl Abort, read: &Result<T>, wanted: &T) {
    same(rt, read.as_ref().ok(), Some(wanted));
}

// Ends the test unless the two differ.
pub(crate) fn differ<T: PartialEq + Debug>(rt: &impl Abort, of: &str, left: &T, right: &T) {
    holds_of(rt, of, left != right);
}

// Ends the test where the two print one text, or where there is no memory for it.
pub(crate) fn print_differently<T: Display>(rt: &impl Abort, alloc: Global, left: &T, right: &T) {
    let [left, right] = [left.to_string(alloc).ok(), right.to_string(alloc).ok()];
    holds_of(
        rt,
        left.as_deref(),
        left.is_some() && right.is_some() && left.as_deref() != right.as_deref(),
    );
}
