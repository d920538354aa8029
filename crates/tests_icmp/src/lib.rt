//! The tests of `icmp4_wire` and `icmp6_wire`, over their public calls.
#![tactic(auto)]

#[cfg(test)]
mod icmp4;
#[cfg(test)]
mod icmp6;
#[cfg(test)]
mod testing;
