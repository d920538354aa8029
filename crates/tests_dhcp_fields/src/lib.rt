//! The tests of `dhcp_fields`, over its public calls.
#![tactic(auto)]

#[cfg(test)]
mod leases;
#[cfg(test)]
mod packets;
#[cfg(test)]
mod testing;
