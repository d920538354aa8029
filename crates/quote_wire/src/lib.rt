//! Errors of ICMPv4 and of ICMPv6 with the bytes that they quote, whole or cut short, and the errors about a datagram
//! that quote its own bytes.
//!
//! ```
//! use quote_wire::icmpv4_error::{Kind, Repr};
//! use quote_wire::quote::Ipv4Quote;
//! use control_wire::{ChecksumCapabilities, IpProtocol};
//!
//! // A probe of UDP, and the answer of its receiver: no one listens at the port.
//! let probe = [
//!     0x45, 0, 0, 28, 0x12, 0x34, 0, 0, 1, 17, 0, 0, 192, 0, 2, 1, 192, 0, 2, 2, //
//!     0x9c, 0x40, 0x82, 0x9b, 0, 8, 0, 0,
//! ];
//! let error = Repr { kind: Kind::DstUnreachable, code: 3, rest: 0, quoted: &probe };
//! let checksums = ChecksumCapabilities::default();
//! let mut octets = [0; 64];
//! let octets = &mut octets[..error.buffer_len()];
//! error.emit_into(octets, &checksums);
//!
//! let read = Repr::parse(octets, &checksums)?;
//! let quote = Ipv4Quote::parse(read.quoted)?;
//! assert_eq!((quote.ident, quote.next_header), (0x1234, IpProtocol::Udp));
//! # Ok::<(), control_wire::Error>(())
//! ```
#![tactic(auto)]

mod error;
pub mod icmpv4_error;
pub mod icmpv6_error;
pub mod message;
pub mod quote;

// The fields of an error; their picture is in specs/Error.antt.
mod field {
    use wirebase::Field;

    pub const TYPE: Field = 0..1;

    pub const CODE: Field = 1..2;

    pub const CHECKSUM: Field = 2..4;

    pub const REST: Field = 4..8;

    pub const HEADER_END: usize = 8;
}
