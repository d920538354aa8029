//! The names of a server and of a file to start from: texts in fields of fixed size.

ghost use Rattle.std.specs.Prelude.{◌≡◌, ◌<◌, List, ℕ, length, take, slice_index, IfOk, OnErr, IsOkAnd};
ghost use Rattle.wirebase.specs.Bytes.{Reaches, bytes_of};
ghost use Rattle.dhcp_wire.specs.Dhcpv4Packet.{inner, sname_field, file_field, HasNoZero, IsTextIn};

use super::packet::{Packet, field};
use wirebase::{Error, Octets, Result};

impl<T: Octets> Packet<T> {
    /// The name of a server: the bytes before the first zero. Refused where there is no zero byte, or nothing before
    /// it, or no UTF-8. The field begins at byte 34, as in smoltcp, where RFC 2131 section 2 has the hardware address's
    /// padding: a packet with zeros there is refused. Requires at least 108 bytes.
    #[tactic(auto, unfolding(wirebase::specs::Bytes::part))]
    pub fn get_sname(&self) -> Result<&str>
        requires { Reaches sname_field (T.bytes (inner self.now)) }
        ensures sound { IfOk result
            (λ text. IsTextIn (bytes_of sname_field (T.bytes (inner self.now))) text.now) }
        ensures complete { (text : List ℕ) → IsTextIn (bytes_of sname_field (T.bytes (inner self.now)))
            text
            → IsOkAnd result (λ read. read.now ≡ text) }
    {
        text_in(self.buffer.field(field::SNAME))
    }

    /// The name of a file to start from: the bytes before the first zero. Refused where there is no zero byte, or
    /// nothing before it, or no UTF-8. Requires at least 236 bytes.
    #[tactic(auto, unfolding(wirebase::specs::Bytes::part))]
    pub fn get_boot_file(&self) -> Result<&str>
        requires { Reaches file_field (T.bytes (inner self.now)) }
        ensures sound { IfOk result
            (λ text. IsTextIn (bytes_of file_field (T.bytes (inner self.now))) text.now) }
        ensures complete { (text : List ℕ) → IsTextIn (bytes_of file_field (T.bytes (inner self.now)))
            text
            → IsOkAnd result (λ read. read.now ≡ text) }
    {
        text_in(self.buffer.field(field::FILE))
    }
}

// The text that a field of fixed size holds.
fn text_in(octets: &[u8]) -> Result<&str>
    ensures sound { IfOk result (λ text. IsTextIn octets.now text.now) }
    ensures complete { (text : List ℕ) → IsTextIn octets.now text
        → IsOkAnd result (λ read. read.now ≡ text) }
{
    let count = before_zero(octets)?;
    if count == 0 {
        return Err(Error);
    }
    match std::str::from_utf8(&octets[..count]) {
        Ok(text) => Ok(text),
        Err(_) => Err(Error),
    }
}

// The number of bytes before the first zero; refused where there is no zero.
fn before_zero(octets: &[u8]) -> Result<usize>
    ensures zero { IfOk result (λ count. slice_index octets.now count ≡ 0) }
    ensures inside { IfOk result (λ count. count < length octets.now) }
    ensures before { IfOk result (λ count. HasNoZero (take count octets.now)) }
    ensures refused { OnErr result (HasNoZero octets.now) }
{
    for (i, byte) in octets.iter().enumerate() {
        if *byte == 0 {
            return Ok(i);
        }
    }
    Err(Error)
}
