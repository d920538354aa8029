//! The messages of the Domain Name System, and the walk over a name that is written in parts.
#![tactic(auto)]

pub mod dns;
pub mod octets;
