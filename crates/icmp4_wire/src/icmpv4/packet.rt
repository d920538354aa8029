//! The view of a message (RFC 792).

ghost use Rattle.std.specs.Prelude.{◌≡◌, ◌-◌, ◌↔◌, [], ◌∷◌, length, IsTrue, IsOk, IfOk};
ghost use Rattle.std.specs.Borrow.{sem, Lends, Array, u8 as byte};
ghost use Rattle.std.specs.Fmt.{WritesOnOk};
ghost use Rattle.byteorder.specs.Endian.{big_bytes};
ghost use Rattle.wirebase.specs.Bytes.{splice, Reaches, byte_of, number_of};
ghost use Rattle.wirebase.specs.Capabilities.{all_of};
ghost use Rattle.wirebase.specs.Checksum.{IsGood, sealed};
ghost use Rattle.wirebase.specs.Display.{Shows};
ghost use Rattle.wirebase.specs.Icmp.{type_field, code_field, checksum_field, ident_field, seq_no_field, header};
ghost use Rattle.wirebase.specs.Icmp.{data_in};
ghost use Rattle.wirebase.specs.declared.capabilities.Checksum.TheVariants.{Both};
ghost use Rattle.wirebase.specs.View.{Sets, KeepsLen};
ghost use Rattle.icmp4_wire.specs.Icmpv4Tables.{message_number, message_of};
ghost use Rattle.icmp4_wire.specs.Icmpv4.{inner, with_inner, view_octets, IsMessage};
ghost use Rattle.icmp4_wire.specs.Icmpv4Display.{repr_display, refused_display};
ghost use Rattle.icmp4_wire.specs.contracts.icmpv4.packet.Packet.{the_row};

use super::field;
use super::repr::Repr;
use super::tables::Message;
use super::unread::Unread;
use std::fmt;
use wirebase::{ChecksumCapabilities, Error, Octets, OctetsMut, Result, checksum};

/// A view of the octets of a message.
#[derive(Debug, Clone, Drop)]
pub struct Packet<T: Octets> {
    pub(super) buffer: T,
}

impl<T: Octets> Packet<T> {
    /// Makes a view of `buffer`; its length is not checked.
    pub const fn new_unchecked(buffer: T) -> Packet<T>
        ensures { inner result ≡ buffer }
    {
        Packet { buffer }
    }

    /// Makes a view of `buffer`. Refused where it has fewer than 8 octets. On refusal the buffer is dropped: to keep a
    /// `&mut [u8]`, call `new_unchecked` and then `check_len`.
    pub fn new_checked(buffer: T) -> Result<Packet<T>>
        ensures accepts { IsOk result ↔ Reaches header (T.bytes buffer) }
        ensures buffer { IfOk result (λ view. inner view ≡ buffer) }
    {
        let packet = Packet::new_unchecked(buffer);
        packet.check_len()?;
        Ok(packet)
    }

    /// Accepts 8 octets or more. Then each accessor may be called.
    pub fn check_len(&self) -> Result<()>
        ensures accepts { IsOk result ↔ Reaches header (T.bytes (inner self.now)) }
    {
        if self.buffer.octets().len() < field::HEADER_END {
            return Err(Error);
        }
        Ok(())
    }

    /// Returns the buffer of the view.
    pub fn into_inner(self) -> T
        ensures { result ≡ inner self }
    {
        self.buffer
    }

    /// All the octets.
    pub fn as_ref(&self) -> &[u8]
        ensures { result.now ≡ T.bytes (inner self.now) }
    {
        self.buffer.octets()
    }

    /// The type. Requires at least 1 byte.
    pub fn msg_type(&self) -> Message
        requires { Reaches type_field (T.bytes (inner self.now)) }
        ensures { result ≡ message_of (byte_of type_field (T.bytes (inner self.now))) }
    {
        Message::from(self.buffer.u8_at(field::TYPE))
    }

    /// The code. Requires at least 2 bytes.
    pub fn msg_code(&self) -> u8
        requires { Reaches code_field (T.bytes (inner self.now)) }
        ensures { result ≡ byte_of code_field (T.bytes (inner self.now)) }
    {
        self.buffer.u8_at(field::CODE)
    }

    /// The checksum that the message carries. Requires at least 4 bytes.
    pub fn checksum(&self) -> u16
        requires { Reaches checksum_field (T.bytes (inner self.now)) }
        ensures { result ≡ number_of checksum_field (T.bytes (inner self.now)) }
    {
        self.buffer.u16_at(field::CHECKSUM)
    }

    /// The identifier of an echo. Requires at least 6 bytes.
    pub fn echo_ident(&self) -> u16
        requires { Reaches ident_field (T.bytes (inner self.now)) }
        ensures { result ≡ number_of ident_field (T.bytes (inner self.now)) }
    {
        self.buffer.u16_at(field::ECHO_IDENT)
    }

    /// The sequence number of an echo. Requires at least 8 bytes.
    pub fn echo_seq_no(&self) -> u16
        requires { Reaches seq_no_field (T.bytes (inner self.now)) }
        ensures { result ≡ number_of seq_no_field (T.bytes (inner self.now)) }
    {
        self.buffer.u16_at(field::ECHO_SEQNO)
    }

    /// The bytes of the header, 8 for every type. Requires at least 1 byte.
    pub fn header_len(&self) -> usize
        requires { Reaches type_field (T.bytes (inner self.now)) }
        ensures { result ≡ 8 }
    {
        field::HEADER_END
    }

    /// Whether all the octets together carry their checksum (RFC 1071).
    pub fn verify_checksum(&self) -> bool
        ensures { IsTrue result ↔ IsGood (T.bytes (inner self.now)) 0 }
    {
        checksum::is_good(self.buffer.octets(), 0)
    }
}

impl<'a> Packet<&'a [u8]> {
    /// What follows the header, for as long as the octets live. Requires at least 8 bytes.
    pub fn data(&self) -> &'a [u8]
        requires { Reaches header (inner self.now).now }
        ensures { result.now ≡ data_in (inner self.now).now }
    {
        &self.buffer[field::HEADER_END..]
    }
}

impl<T: OctetsMut> Packet<T> {
    /// Writes the type. Requires at least 1 byte.
    pub fn set_msg_type(&mut self, value: Message)
        requires { Reaches type_field (T.bytes (inner self.old)) }
        ensures writes { Sets inner T.bytes T.put self.old self.new type_field
            (message_number value ∷ []) }
        ensures len { KeepsLen inner T.bytes self.old self.new }
    {
        self.buffer.set_u8(field::TYPE, value.into());
    }

    /// Writes the code. Requires at least 2 bytes.
    pub fn set_msg_code(&mut self, value: u8)
        requires { Reaches code_field (T.bytes (inner self.old)) }
        ensures writes { Sets inner T.bytes T.put self.old self.new code_field (value ∷ []) }
        ensures len { KeepsLen inner T.bytes self.old self.new }
    {
        self.buffer.set_u8(field::CODE, value);
    }

    /// Writes the checksum. Requires at least 4 bytes.
    pub fn set_checksum(&mut self, value: u16)
        requires { Reaches checksum_field (T.bytes (inner self.old)) }
        ensures writes { Sets inner T.bytes T.put self.old self.new checksum_field (big_bytes 2 value) }
        ensures len { KeepsLen inner T.bytes self.old self.new }
    {
        self.buffer.set_u16(field::CHECKSUM, value);
    }

    /// Writes the identifier of an echo. Requires at least 6 bytes.
    pub fn set_echo_ident(&mut self, value: u16)
        requires { Reaches ident_field (T.bytes (inner self.old)) }
        ensures writes { Sets inner T.bytes T.put self.old self.new ident_field (big_bytes 2 value) }
        ensures len { KeepsLen inner T.bytes self.old self.new }
    {
        self.buffer.set_u16(field::ECHO_IDENT, value);
    }

    /// Writes the sequence number of an echo. Requires at least 8 bytes.
    pub fn set_echo_seq_no(&mut self, value: u16)
        requires { Reaches seq_no_field (T.bytes (inner self.old)) }
        ensures writes { Sets inner T.bytes T.put self.old self.new seq_no_field (big_bytes 2 value) }
        ensures len { KeepsLen inner T.bytes self.old self.new }
    {
        self.buffer.set_u16(field::ECHO_SEQNO, value);
    }

    /// Writes the checksum of all the octets, in which its field counts as zero (RFC 1071). Requires at least 4 bytes.
    pub fn fill_checksum(&mut self)
        requires { Reaches checksum_field (T.bytes (inner self.old)) }
        ensures sealed { inner self.new ≡ T.put (inner self.old)
            (sealed checksum_field (T.bytes (inner self.old)) 0) }
        ensures len { KeepsLen inner T.bytes self.old self.new }
        ensures good { IsGood (T.bytes (inner self.new)) 0 }
    {
        checksum::fill(self.buffer.octets_mut(), field::CHECKSUM, 0);
    }

    /// Lends what follows the header for writing; the header is unchanged. Requires at least 8 bytes.
    #[tactic(auto, using(wirebase::proofs::Pieces::pieces))]
    pub fn data_mut(&mut self) -> &mut [u8]
        requires { Reaches header (T.bytes (inner self.old)) }
        ensures* lends { sem 𝓛 (Lends (the_row T.row) (Array byte 0) self.entry result
            (λ w. with_inner self.old (T.put (inner self.old)
            (splice (T.bytes (inner self.old)) 8 (length (T.bytes (inner self.old))) w)))) }
        ensures value { result.now ≡ data_in (T.bytes (inner self.old)) }
        ensures len { length result.now ≡ length (T.bytes (inner self.old)) - 8 }
    {
        let len = self.buffer.octets().len();
        self.buffer.range_mut(field::HEADER_END, len)
    }
}

/// Views are equal where their octets are equal.
impl<T: Octets> PartialEq for Packet<T> {
    ghost use Rattle.std.specs.Prelude.{◌==◌};
    ghost use Rattle.std.proofs.Common.{rules};
    ghost use Rattle.std.specs.Cmp.Lexicographic.{pointwise};
    ghost use Rattle.std.specs.Cmp.Rules.{comparing};
    ghost use Rattle.std.specs.Ordering.{on};

    ghost eq = { on (λ view. T.bytes (inner view)) (pointwise ◌==◌) };

    ghost laws = { Prim.search (comparing, rules) };

    fn eq(&self, other: &Packet<T>) -> bool
        ensures { IsTrue result ↔ (T.bytes (inner self.now) ≡ T.bytes (inner other.now)) }
    {
        self.buffer.octets() == other.buffer.octets()
    }
}

impl<T: Octets> Eq for Packet<T> {
    ghost use Rattle.std.proofs.Common.{rules};
    ghost use Rattle.std.specs.Cmp.Rules.{comparing};

    ghost laws = { Prim.search (comparing, rules) };
}

/// Prints the message in the octets, its checksum verified; where they are refused, `ICMPv4 (wire::Error)`, and after
/// that their type and their code by name, where they have both.
impl<T: Octets> fmt::Display for Packet<T> {
    fn fmt<W: fmt::Write>(&self, f: &mut fmt::Formatter<W>) -> fmt::Result
        ensures { Shows (IsMessage (all_of Both) (T.bytes (inner self.now))) repr_display
            (refused_display (T.bytes (inner self.now)))
            (λ text. WritesOnOk W.write_str_gives f.old result text f.new) }
    {
        let packet = Packet::new_unchecked(self.buffer.octets());
        match Repr::parse(&packet, &ChecksumCapabilities::default()) {
            Ok(repr) => write!(f, "{repr}"),
            Err(_) => packet.fmt_unread(f),
        }
    }
}

impl Packet<&[u8]> {
    // Prints octets that are refused.
    fn fmt_unread<W: fmt::Write>(&self, f: &mut fmt::Formatter<W>) -> fmt::Result
        ensures { WritesOnOk W.write_str_gives f.old result
            (refused_display (view_octets self.now)) f.new }
    {
        if self.buffer.len() < field::CODE.end {
            return write!(f, "ICMPv4 (wire::Error)");
        }
        let unread = Unread {
            kind: self.msg_type(),
            code: self.msg_code(),
        };
        write!(f, "{unread}")
    }
}
