//! The tests of `icmp_fields`, over its public calls.
#![tactic(auto)]

#[cfg(test)]
mod icmp4;
#[cfg(test)]
mod icmp6;
#[cfg(test)]
mod interfaces;
#[cfg(test)]
mod queries;
#[cfg(test)]
mod testing;
