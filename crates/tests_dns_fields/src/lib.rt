//! The tests of `dns_fields`, over its public calls.
#![tactic(auto)]

#[cfg(test)]
mod dns;
#[cfg(test)]
mod messages;
#[cfg(test)]
mod nbns;
#[cfg(test)]
mod testing;
