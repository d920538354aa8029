//! Options of IPv6 extension headers with the headers that carry them, and options of neighbor discovery.
#![tactic(auto)]

pub mod ipv6ext_header;
pub mod ipv6hbh;
pub mod ipv6option;
pub mod ndiscoption;
pub mod writing;
