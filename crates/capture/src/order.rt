//! The byte order of numbers.

ghost use Rattle.std.specs.Prelude.{◌≡◌, ◌≤◌, ◌+◌, length};
ghost use Rattle.wirebase.specs.Bytes.{part};
ghost use Rattle.capture.specs.Order.{number, signed_number};

use byteorder::{BigEndian, ByteOrder, LittleEndian};
use wirebase::{Field, Octets};

/// The byte order of the machine that wrote a file.
#[derive(Debug, PartialEq, Eq, Clone, Copy)]
pub enum Order {
    /// Big-endian: the highest byte first.
    Big,
    /// Little-endian: the lowest byte first.
    Little,
}

impl Order {
    /// The number in a field of two bytes. Requires at least two bytes.
    pub fn u16_at(self, octets: &[u8], field: Field) -> u16
        requires two { field.end ≡ field.start + 2 }
        requires room { field.end ≤ length octets.now }
        ensures { result ≡ number self 2 (part octets.now field.start field.end) }
    {
        let bytes = octets.range(field.start, field.end);
        match self {
            Order::Big => BigEndian::read_u16(bytes),
            Order::Little => LittleEndian::read_u16(bytes),
        }
    }

    /// The number in a field of four bytes. Requires at least four bytes.
    #[inline]
    pub fn u32_at(self, octets: &[u8], field: Field) -> u32
        requires four { field.end ≡ field.start + 4 }
        requires room { field.end ≤ length octets.now }
        ensures { result ≡ number self 4 (part octets.now field.start field.end) }
    {
        let bytes = octets.range(field.start, field.end);
        match self {
            Order::Big => BigEndian::read_u32(bytes),
            Order::Little => LittleEndian::read_u32(bytes),
        }
    }

    /// The signed number in the first eight bytes. Requires at least eight bytes.
    pub fn i64_of(self, octets: &[u8]) -> i64
        requires { 8 ≤ length octets.now }
        ensures { result ≡ signed_number self octets.now }
    {
        match self {
            Order::Big => BigEndian::read_i64(octets),
            Order::Little => LittleEndian::read_i64(octets),
        }
    }
}
