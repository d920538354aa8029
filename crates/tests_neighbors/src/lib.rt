//! The tests of `neighbor_wire`, over its public calls.
#![tactic(auto)]

#[cfg(test)]
mod names;
#[cfg(test)]
mod options;
#[cfg(test)]
mod prefixes;
#[cfg(test)]
mod refusals;
#[cfg(test)]
mod services;
#[cfg(test)]
mod testing;
#[cfg(test)]
mod writing;
