//! What texts are put into.

ghost use Rattle.std.specs.Prelude.{ℕ, List};
ghost use Rattle.std.specs.Str.{IsAscii};
ghost use Rattle.wirebase.specs.Sink.{PutsText};

use std::fmt;

/// A way to put texts into outputs of type `O`, so that one function prints for `Display` and for `io::Write`.
pub trait Sink<O> {
    /// Why a text can't be put.
    type Error: Drop;

    /// What one call did, where it did not fail: the output before, the text, and the output after.
    ghost took: { O → List ℕ → O → Type 0 };

    /// Puts a text, which has to be ASCII, into the output.
    fn put(output: &mut O, text: &[u8]) -> Result<(), Self::Error>
        requires { IsAscii text.now }
        ensures { PutsText took output.old text.now result output.new };

    /// Puts a string into the output.
    fn put_str(output: &mut O, text: &str) -> Result<(), Self::Error>
        ensures { PutsText took output.old text.now result output.new };
}

/// Texts go into a formatter that sets no width, precision or sign, as that of a `Display` does for `{}`.
pub struct ToFormatter;

impl<W: fmt::Write> Sink<fmt::Formatter<W>> for ToFormatter {
    ghost use Rattle.wirebase.specs.Sink.{Formats};

    type Error = fmt::Error;

    ghost took = { Formats W.write_str_gives };

    fn put(output: &mut fmt::Formatter<W>, text: &[u8]) -> fmt::Result {
        // ASCII is UTF-8.
        output.write_str(std::str::from_utf8(text).unwrap_or(""))
    }

    #[tactic(auto, using(crate::proofs::Sinks::put_once))]
    fn put_str(output: &mut fmt::Formatter<W>, text: &str) -> fmt::Result {
        output.write_str(text)
    }
}
