//! Extensions of ICMP errors, of ICMPv4 and of ICMPv6 (RFC 4884): objects behind what an error quotes, such as the
//! stack of MPLS labels that a datagram had (RFC 4950), or the interface on which it came (RFC 5837).
//!
//! ```
//! use extension_wire::{ErrorData, Family, Object, Parts, StructureRefusal, structure};
//! use quote_wire::icmpv4_error::{Kind, Repr};
//!
//! // An error says which labels its datagram had, whose first 28 bytes it quotes.
//! let objects = [Object { class: 1, c_type: 1, payload: &[0x00, 0x01, 0x01, 0x01] }];
//! let data = ErrorData { family: Family::V4, quoted: &[0x45; 28], objects: &objects };
//! let mut behind = [0; 140];
//! data.emit_into(&mut behind);
//! // The length is in the second byte of `rest`; of what is quoted an error has 548 bytes at most, 1,232 in ICMPv6.
//! let rest = u32::from(data.length()) << 16;
//! let error = Repr { kind: Kind::TimeExceeded, code: 0, rest, quoted: &behind };
//! assert_eq!(error.buffer_len(), 8 + 140);
//!
//! // Who gets it splits it, and reads the objects.
//! match Parts::split(error.quoted, (error.rest >> 16) as u8, Family::V4) {
//!     Ok(parts) => {
//!         assert_eq!(parts.quoted.len(), 128);
//!         for object in structure::parse(parts.extensions.unwrap_or_default())?.iter() {
//!             assert_eq!(object, Ok(objects[0]));
//!         }
//!     }
//!     Err(refusal) => panic!("{refusal}"),
//! }
//! # Ok::<(), StructureRefusal>(())
//! ```
#![tactic(auto)]

pub mod family;
pub mod interface;
pub mod mpls;
pub mod object;
pub mod refusal;
pub mod split;
pub mod structure;
pub mod writer;

pub use family::Family;
pub use interface::{InterfaceAddress, InterfaceInformation, Role};
pub use mpls::{LabelEntry, LabelStack, LabelStackIterator};
pub use object::{Object, Objects, ObjectsIterator};
pub use refusal::{InterfaceRefusal, LabelRefusal, ObjectRefusal, SplitRefusal, StructureRefusal};
pub use split::Parts;
pub use writer::ErrorData;
