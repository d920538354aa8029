//! The tests of `packet_pairs`, over its public calls.
#![tactic(auto)]

#[cfg(test)]
mod captured;
#[cfg(test)]
mod limits;
#[cfg(test)]
mod made;
#[cfg(test)]
mod pairing;
#[cfg(test)]
mod showing;
#[cfg(test)]
mod testing;
