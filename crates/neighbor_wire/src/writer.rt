//! Options written one after another.

ghost use Rattle.std.specs.Prelude.{◌≡◌, ◌≤◌, ◌++◌, ◌∷◌, [], ◌↔◌, List, ℕ, length, drop, IsOk, IsTrue, IfErr, OnOk};
ghost use Rattle.std.specs.Prelude.{OnErr};
ghost use Rattle.wirebase.specs.Checks.{Fails};
ghost use Rattle.wirebase.specs.Format.{RoundTrips};
ghost use Rattle.neighbor_wire.specs.Option.{value_of, text, text_len, IsOption};
ghost use Rattle.neighbor_wire.specs.OptionFormat.{IsCanonical, norm, format};
ghost use Rattle.neighbor_wire.specs.Options.{AreBlocks};
ghost use Rattle.neighbor_wire.specs.Unwritten.{push_checks};

use crate::option::NeighborOption;
use crate::unwritten::{Unwritten, check_value};

/// Writes options over a slice, one after another from its front on.
///
/// Several prefixes or routes of one router advertisement are written so: first these options, into the octets behind
/// the `packet_len` bytes of the message; then the message, by `icmpv6::Repr::emit_into` over the octets of both, which
/// leaves what is behind it, and whose checksum covers all.
#[derive(Debug, Drop)]
pub struct OptionsWriter<'a> {
    buffer: &'a mut [u8],
    position: usize,
    ghost within: { position ≤ length buffer.now },
}

impl<'a> OptionsWriter<'a> {
    ghost use Rattle.neighbor_wire.specs.Writer.{settled, free, the_slice, IsUnchanged};

    /// A writer over this slice, all of whose bytes are free.
    #[tactic(auto, using(crate::proofs::OptionBlocks::no_blocks))]
    pub fn new(buffer: &'a mut [u8]) -> OptionsWriter<'a>
        ensures settled { settled result ≡ [] }
        ensures free { free result ≡ buffer.old }
        ensures blocks { AreBlocks (settled result) [] }
        ensures same_slice { the_slice result ≡ buffer.entry.ghost_name }
    {
        OptionsWriter {
            buffer,
            position: 0,
        }
    }

    /// The bytes of the options that are written so far.
    pub fn len(&self) -> usize
        ensures { result ≡ length (settled self.now) }
    {
        self.position
    }

    /// Whether no option is written so far.
    pub fn is_empty(&self) -> bool
        ensures { IsTrue result ↔ (settled self.now ≡ []) }
    {
        self.position == 0
    }

    /// Writes an option behind those that are written; [`crate::NeighborOptions`] then gives it after them. Zeros that
    /// fill its last unit then belong to its octets, but to no URI. An option that would be refused or read as another
    /// is refused, with the reason, and so is one where fewer bytes are free than it takes; then nothing changes.
    #[tactic(auto, using(crate::proofs::OptionChecks::refused_first, crate::proofs::OptionChecks::refused_last))]
    pub fn push(&mut self, option: &NeighborOption<'_>) -> Result<(), Unwritten>
        ensures accepts { IsOk result ↔ (IsCanonical (value_of option.now)
            × (text_len (value_of option.now) ≤ length (free self.old))) }
        ensures told { IfErr result (Fails (push_checks (length (free self.old)) (value_of option.now))) }
        ensures settled { OnOk result (settled self.new ≡ settled self.old ++ text (value_of option.now)) }
        ensures free { OnOk result (free self.new ≡ drop (text_len (value_of option.now)) (free self.old)) }
        ensures blocks { OnOk result ((blocks : List (List ℕ)) → AreBlocks (settled self.old) blocks
            → AreBlocks (settled self.new) (blocks ++ text (value_of option.now) ∷ [])) }
        ensures given { OnOk result (IsOption (text (value_of option.now)) (norm (value_of option.now))) }
        ensures round_trips { OnOk result (RoundTrips format (value_of option.now)) }
        ensures refused { OnErr result (IsUnchanged self.old self.new) }
        ensures same_slice { the_slice self.new ≡ the_slice self.old }
    {
        check_value(option)?;
        let start = self.position;
        let len = option.buffer_len();
        if self.buffer.len() - start < len {
            return Err(Unwritten::Full);
        }
        let end = start + len;
        write_whole(option, &mut self.buffer[start..end]);
        self.position = end;
        Ok(())
    }
}

// Writes the option over octets of its length.
#[tactic(auto, using(crate::proofs::OptionChecks::can_write))]
fn write_whole(option: &NeighborOption<'_>, octets: &mut [u8])
    requires canonical { IsCanonical (value_of option.now) }
    requires room { length octets.old ≡ text_len (value_of option.now) }
    ensures { octets.new ≡ text (value_of option.now) }
{
    option.emit_into(octets);
}
