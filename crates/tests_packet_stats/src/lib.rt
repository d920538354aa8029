//! The tests of `packet_stats`, over its public calls.
#![tactic(auto)]

#[cfg(test)]
mod captured;
#[cfg(test)]
mod counting;
#[cfg(test)]
mod dhcp;
#[cfg(test)]
mod groups;
#[cfg(test)]
mod limits;
#[cfg(test)]
mod made;
#[cfg(test)]
mod neighbors;
#[cfg(test)]
mod testing;
