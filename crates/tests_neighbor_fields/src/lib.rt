//! The tests of `neighbor_fields`, over its public calls.
#![tactic(auto)]

#[cfg(test)]
mod groups;
#[cfg(test)]
mod neighbors;
#[cfg(test)]
mod options;
#[cfg(test)]
mod printed;
#[cfg(test)]
mod testing;
