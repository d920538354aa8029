//! The Dynamic Host Configuration Protocol of IPv4.
#![tactic(auto)]

pub mod dhcpv4;
