//! Messages about multicast groups, of all versions, read and written: IGMP, versions 1 (RFC 1112 appendix I), 2
//! (RFC 2236) and 3 (RFC 3376), and MLD, versions 1 (RFC 2710) and 2 (RFC 3810). One type has those of both protocols,
//! [`Membership`]: with the addresses of IPv4 it is a message of IGMP, with those of IPv6 one of MLD.
//!
//! Checksums are verified and written. What a packet around a message needs is up to the caller: a hop limit of 1, the
//! router alert option, in IGMPv3 a type of service of 0xc0 (RFC 3376 section 4), and in MLD a link-local source (RFC
//! 3810 section 5); the caller also checks these on receipt.
//!
//! ```
//! use control_wire::Ipv4Address;
//! use group_wire::{Membership, Message, RecordType, RecordsWriter, Refusal};
//!
//! // A host joins 224.0.0.251: what it says to the routers of version 3, 224.0.0.22.
//! let mut octets = [0; 64];
//! let mut records = RecordsWriter::new(&mut octets);
//! let group = Ipv4Address::new(224, 0, 0, 251);
//! assert!(records.push(RecordType::ChangeToExclude, group, &[]).is_ok());
//! let report = Message::Report { records: records.records() };
//! let mut packet = [0; 64];
//! let packet = &mut packet[..report.buffer_len()];
//! report.emit_igmp(packet);
//! assert_eq!(packet, [0x22, 0, 0xf9, 0x02, 0, 0, 0, 1, 4, 0, 0, 0, 224, 0, 0, 251]);
//!
//! // A router reads it.
//! match Membership::parse_igmp(packet)? {
//!     Message::Report { records } => {
//!         for record in records.iter() {
//!             assert_eq!((record.group, record.sources.len()), (group, 0));
//!         }
//!     }
//!     other => panic!("{other}"),
//! }
//! # Ok::<(), Refusal>(())
//! ```
#![tactic(auto)]

mod address;
mod display;
mod family;
mod membership;
mod query;
mod record;
mod records;
mod refusal;
mod sources;
mod times;
mod writer;

pub use address::Address;
pub use family::Family;
pub use membership::{Membership, Message, same_text};
pub use query::Query;
pub use record::{Record, RecordType};
pub use records::{Records, RecordsIterator};
pub use refusal::Refusal;
pub use sources::{Sources, SourcesIterator};
pub use writer::{Full, RecordsWriter};
