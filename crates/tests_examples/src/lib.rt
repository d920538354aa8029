//! The tests of `examples`, over its public calls.
#![tactic(auto)]

#[cfg(test)]
mod callers;
#[cfg(test)]
mod testing;
