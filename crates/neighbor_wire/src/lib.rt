//! The options of messages of neighbor discovery as values (RFC 4861 section 4.6): link-layer addresses, prefixes and
//! MTUs, and of later RFCs nonces, routes, DNS servers and search lists, captive portals and prefixes of NAT64. A
//! redirected header (type 4), which `ndiscoption` reads, and any other option are given by their octets.
//!
//! ```
//! use neighbor_wire::{NeighborOption, NeighborOptions, Refusal};
//!
//! // An MTU of 1500 bytes, and a nonce.
//! let octets = [5, 1, 0, 0, 0, 0, 0x05, 0xdc, 14, 1, 1, 2, 3, 4, 5, 6];
//! let options: Vec<NeighborOption> = NeighborOptions::new(&octets).collect::<Result<_, _>>()?;
//! assert_eq!(options, [NeighborOption::Mtu(1500), NeighborOption::Nonce(&[1, 2, 3, 4, 5, 6])]);
//! # Ok::<(), Refusal>(())
//! ```
#![tactic(auto)]

mod display;
pub mod kind;
pub mod names;
pub mod nat64;
pub mod option;
pub mod options;
pub mod preference;
pub mod prefix;
pub mod refusal;
pub mod route;
pub mod servers;
pub mod unwritten;
pub mod writer;

pub use names::{NameRefusal, Names, NamesIterator};
pub use nat64::{Nat64Length, Nat64Prefix};
pub use option::NeighborOption;
pub use options::NeighborOptions;
pub use preference::Preference;
pub use prefix::Prefix;
pub use refusal::Refusal;
pub use route::Route;
pub use servers::{Servers, ServersIterator};
pub use unwritten::Unwritten;
pub use writer::OptionsWriter;
