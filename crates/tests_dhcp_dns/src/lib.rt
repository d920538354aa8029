//! The tests of `dhcp_wire` and `dns_wire`, over their public calls.
#![tactic(auto)]

#[cfg(test)]
mod dhcp;
#[cfg(test)]
mod dns;
#[cfg(test)]
mod testing;
