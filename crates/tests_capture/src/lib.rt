//! The tests of `capture`, over its public calls.
#![tactic(auto)]

#[cfg(test)]
mod captures;
#[cfg(test)]
mod testing;
