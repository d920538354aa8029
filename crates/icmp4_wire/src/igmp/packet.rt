//! The view of a message (RFC 2236 section 2).

ghost use Rattle.std.specs.Prelude.{◌≡◌, ◌↔◌, [], ◌∷◌, IsTrue, IsOk, IfOk};
ghost use Rattle.std.specs.Fmt.{WritesOnOk};
ghost use Rattle.byteorder.specs.Endian.{big_bytes};
ghost use Rattle.wirebase.specs.Bytes.{Reaches, byte_of, bytes_of, number_of};
ghost use Rattle.wirebase.specs.Checksum.{IsGood, sealed};
ghost use Rattle.wirebase.specs.Display.{Shows};
ghost use Rattle.wirebase.specs.Ipv4.{octets_of};
ghost use Rattle.wirebase.specs.View.{Sets, KeepsLen};
ghost use Rattle.icmp4_wire.specs.Igmp.{message_number, message_of, inner, IsMessage};
ghost use Rattle.icmp4_wire.specs.Igmp.{type_field, code_field, checksum_field, group_field};
ghost use Rattle.icmp4_wire.specs.IgmpDisplay.{repr_display, refused_display};

use super::field;
use super::repr::Repr;
use super::tables::Message;
use std::fmt;
use wirebase::{Error, Ipv4Address, Octets, OctetsMut, Result, checksum};

/// A view of the octets of a message.
#[derive(Debug, Drop)]
pub struct Packet<T: Octets> {
    pub(super) buffer: T,
}

impl<T: Octets> Packet<T> {
    /// Makes a view of `buffer`; its length is not checked.
    pub const fn new_unchecked(buffer: T) -> Packet<T>
        ensures { inner result ≡ buffer }
    {
        Packet { buffer }
    }

    /// Makes a view of `buffer`. Refused where it has fewer than 8 octets. On refusal the buffer is dropped: to keep a
    /// `&mut [u8]`, call `new_unchecked` and then `check_len`.
    pub fn new_checked(buffer: T) -> Result<Packet<T>>
        ensures accepts { IsOk result ↔ Reaches group_field (T.bytes buffer) }
        ensures buffer { IfOk result (λ view. inner view ≡ buffer) }
    {
        let packet = Packet::new_unchecked(buffer);
        packet.check_len()?;
        Ok(packet)
    }

    /// Accepts 8 octets or more. Then each accessor may be called.
    pub fn check_len(&self) -> Result<()>
        ensures accepts { IsOk result ↔ Reaches group_field (T.bytes (inner self.now)) }
    {
        if self.buffer.octets().len() < field::GROUP_ADDRESS.end {
            return Err(Error);
        }
        Ok(())
    }

    /// Returns the buffer of the view.
    pub fn into_inner(self) -> T
        ensures { result ≡ inner self }
    {
        self.buffer
    }

    /// The type. Requires at least 1 byte.
    pub fn msg_type(&self) -> Message
        requires { Reaches type_field (T.bytes (inner self.now)) }
        ensures { result ≡ message_of (byte_of type_field (T.bytes (inner self.now))) }
    {
        Message::from(self.buffer.u8_at(field::TYPE))
    }

    /// The code of the maximum response time of a query (RFC 3376 section 4.1.1). Requires at least 2 bytes.
    pub fn max_resp_code(&self) -> u8
        requires { Reaches code_field (T.bytes (inner self.now)) }
        ensures { result ≡ byte_of code_field (T.bytes (inner self.now)) }
    {
        self.buffer.u8_at(field::MAX_RESP_CODE)
    }

    /// The checksum. Requires at least 4 bytes.
    pub fn checksum(&self) -> u16
        requires { Reaches checksum_field (T.bytes (inner self.now)) }
        ensures { result ≡ number_of checksum_field (T.bytes (inner self.now)) }
    {
        self.buffer.u16_at(field::CHECKSUM)
    }

    /// The group of the message. Requires at least 8 bytes.
    pub fn group_addr(&self) -> Ipv4Address
        requires { Reaches group_field (T.bytes (inner self.now)) }
        ensures { octets_of result ≡ bytes_of group_field (T.bytes (inner self.now)) }
    {
        Ipv4Address::from_octets(self.buffer.field(field::GROUP_ADDRESS).try_into().unwrap())
    }

    /// Whether all the octets together carry their checksum (RFC 1071).
    pub fn verify_checksum(&self) -> bool
        ensures { IsTrue result ↔ IsGood (T.bytes (inner self.now)) 0 }
    {
        checksum::is_good(self.buffer.octets(), 0)
    }
}

impl<T: OctetsMut> Packet<T> {
    /// Writes the type. Requires at least 1 byte.
    pub fn set_msg_type(&mut self, value: Message)
        requires { Reaches type_field (T.bytes (inner self.old)) }
        ensures writes { Sets inner T.bytes T.put self.old self.new type_field
            (message_number value ∷ []) }
        ensures len { KeepsLen inner T.bytes self.old self.new }
    {
        self.buffer.set_u8(field::TYPE, value.into());
    }

    /// Writes the code of the maximum response time of a query (RFC 3376 section 4.1.1). Requires at least 2 bytes.
    pub fn set_max_resp_code(&mut self, value: u8)
        requires { Reaches code_field (T.bytes (inner self.old)) }
        ensures writes { Sets inner T.bytes T.put self.old self.new code_field (value ∷ []) }
        ensures len { KeepsLen inner T.bytes self.old self.new }
    {
        self.buffer.set_u8(field::MAX_RESP_CODE, value);
    }

    /// Writes the checksum. Requires at least 4 bytes.
    pub fn set_checksum(&mut self, value: u16)
        requires { Reaches checksum_field (T.bytes (inner self.old)) }
        ensures writes { Sets inner T.bytes T.put self.old self.new checksum_field (big_bytes 2 value) }
        ensures len { KeepsLen inner T.bytes self.old self.new }
    {
        self.buffer.set_u16(field::CHECKSUM, value);
    }

    /// Writes the group of the message. Requires at least 8 bytes.
    pub fn set_group_address(&mut self, value: Ipv4Address)
        requires { Reaches group_field (T.bytes (inner self.old)) }
        ensures writes { Sets inner T.bytes T.put self.old self.new group_field (octets_of value) }
        ensures len { KeepsLen inner T.bytes self.old self.new }
    {
        self.buffer.set_bytes(field::GROUP_ADDRESS, &value.octets());
    }

    /// Writes the checksum of all the octets, in which its field counts as zero (RFC 1071). Requires at least 4 bytes.
    pub fn fill_checksum(&mut self)
        requires { Reaches checksum_field (T.bytes (inner self.old)) }
        ensures sealed { inner self.new ≡ T.put (inner self.old)
            (sealed checksum_field (T.bytes (inner self.old)) 0) }
        ensures len { KeepsLen inner T.bytes self.old self.new }
        ensures good { IsGood (T.bytes (inner self.new)) 0 }
    {
        checksum::fill(self.buffer.octets_mut(), field::CHECKSUM, 0);
    }
}

/// Prints the message at the front of the octets, or `IGMP (wire::Error)` where they are refused.
impl<T: Octets> fmt::Display for Packet<T> {
    fn fmt<W: fmt::Write>(&self, f: &mut fmt::Formatter<W>) -> fmt::Result
        ensures { Shows (IsMessage (T.bytes (inner self.now))) repr_display
            refused_display (λ text. WritesOnOk W.write_str_gives f.old result text f.new) }
    {
        let packet = Packet::new_unchecked(self.buffer.octets());
        match Repr::parse(&packet) {
            Ok(repr) => write!(f, "{repr}"),
            Err(_) => write!(f, "IGMP (wire::Error)"),
        }
    }
}
