//! The tests of `wirebase` and `opt_wire`, over their public calls.
#![tactic(auto)]

#[cfg(test)]
mod base;
#[cfg(test)]
mod options;
#[cfg(test)]
mod testing;
