//! Colors, by the control sequences of ECMA-48 section 8.3.117 (SGR).

#![tactic(auto, using(packet_fields::proofs::Printing::gains_none))]

ghost use Rattle.std.specs.Prelude.{◌≡◌, OnOk};
ghost use Rattle.packet_fields.specs.Output.{Gains};
ghost use Rattle.dump_captures.specs.Color.{before_text, behind_text, is_colored, is_red};

use crate::kind::Reason;
use crate::options::{Color, Options};
use std::io;
use std::io::Write;

/// What begins bold text.
pub(crate) const BOLD: &[u8] = b"\x1b[1m";

/// What begins red text.
pub(crate) const RED: &[u8] = b"\x1b[31m";

/// Prints what begins a text, where it is colored.
pub(crate) fn begin_color<W: Write>(
    output: &mut W,
    is_colored: bool,
    begin: &[u8],
) -> io::Result<()>
    ensures { OnOk result (Gains (W.contents output.old) (W.contents output.new) (before_text is_colored begin.now)) }
{
    if !is_colored {
        return Ok(());
    }
    output.write_all(begin)
}

/// Prints what ends it.
pub(crate) fn end_color<W: Write>(output: &mut W, is_colored: bool) -> io::Result<()>
    ensures { OnOk result (Gains (W.contents output.old) (W.contents output.new) (behind_text is_colored)) }
{
    if !is_colored {
        return Ok(());
    }
    output.write_all(b"\x1b[0m")
}

impl Options {
    /// Whether lines are colored.
    pub(crate) fn is_colored(&self) -> bool
        ensures { result ≡ is_colored self.now }
    {
        matches!(self.color, Color::Always)
    }

    /// Whether the line of a packet is red that is refused or read in part for this reason, if it is.
    pub(crate) fn is_red(&self, why: Option<Reason>) -> bool
        ensures { result ≡ is_red self.now why }
    {
        self.is_colored() && why.is_some()
    }
}
