//! Where listings go.

#![tactic(auto, using(crate::proofs::Printing::put_once))]

ghost use Rattle.packet_fields.specs.Output.{Appending};

use std::io;
use std::io::Write;
use wirebase::text::Sink;

/// Texts go to an `io::Write`, each in one `write_all`. Inlined: a text that the caller knows is copied without a call.
pub struct ToWriter;

impl<W: Write> Sink<W> for ToWriter {
    type Error = io::Error;

    ghost took = { Appending W.contents };

    #[inline(always)]
    fn put(output: &mut W, text: &[u8]) -> io::Result<()> {
        output.write_all(text)
    }

    #[inline(always)]
    fn put_str(output: &mut W, text: &str) -> io::Result<()> {
        output.write_all(text.as_bytes())
    }
}
