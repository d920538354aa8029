//! The control protocols of IPv6: ICMPv6, with multicast listener discovery and neighbor discovery.
#![tactic(auto)]

pub mod icmpv6;
pub mod mld;
pub mod ndisc;
mod writing;
