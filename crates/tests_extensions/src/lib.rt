//! The tests of `extension_wire`, over its public calls.
#![tactic(auto)]

#[cfg(test)]
mod errors;
#[cfg(test)]
mod interfaces;
#[cfg(test)]
mod labels;
#[cfg(test)]
mod quotes;
#[cfg(test)]
mod structures;
#[cfg(test)]
mod testing;
