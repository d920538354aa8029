//! The tests of `reassembly`, over its public calls.
#![tactic(auto)]

#[cfg(test)]
mod fragments;
#[cfg(test)]
mod reassembling;
#[cfg(test)]
mod testing;
