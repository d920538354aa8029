//! Messages of the Domain Name System, read whole: their questions and resource records in turn, of any type and class
//! and also of multicast DNS, the data of records by type, names as octets and as text, and records as a zone file has
//! them.
//!
//! ```
//! use record_wire::{Entries, Entry, Name};
//! use record_wire::rdata::RData;
//! use control_wire::dns::Packet;
//!
//! // A response with one record: the mail server of example.com.
//! let octets = b"\x12\x34\x81\x80\0\x01\0\x01\0\0\0\0\x07example\x03com\0\0\x0f\0\x01\
//!     \xc0\x0c\0\x0f\0\x01\0\0\x0e\x10\0\x09\0\x0a\x04mail\xc0\x0c";
//! let packet = Packet::new_checked(&octets[..])?;
//! for entry in Entries::new(&packet) {
//!     let Entry::Record(_, record) = entry? else { continue };
//!     if let RData::Mx { preference, exchange } = RData::parse(record.type_, record.class, record.data)? {
//!         let (name, exchange) = (Name::read(&packet, record.name)?, Name::read(&packet, exchange)?);
//!         let line = format!("{name} {} MX {preference} {exchange}", record.ttl);
//!         assert_eq!(line, "example.com 3600 MX 10 mail.example.com");
//!     }
//! }
//! # Ok::<(), control_wire::Error>(())
//! ```
#![tactic(auto)]

pub mod classes;
pub mod edns;
pub mod entries;
mod escapes;
mod line;
pub mod multicast;
pub mod name;
pub mod rdata;
pub mod record;
pub mod refusal;
pub mod strings;
pub mod text;
pub mod types;
pub mod update;

pub use classes::ClassName;
pub use edns::{Edns, EdnsOption, EdnsOptions, OptionRefusal};
pub use entries::{Entries, Entry, Section};
pub use name::Name;
pub use name::refusal::NameRefusal;
pub use name::text_refusal::NameTextRefusal;
pub use rdata::refusal::DataRefusal;
pub use record::{Question, Record};
pub use refusal::{PartRefusal, Refusal};
pub use strings::TxtStrings;
pub use text::refusal::TextRefusal;
pub use text::{AuthorityText, DataText, EntryText, FieldsText, QuestionText, RecordText};
