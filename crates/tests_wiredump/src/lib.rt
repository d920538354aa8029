//! The tests of `listing` and `dump_lines`, over their public calls.
#![tactic(auto)]

#[cfg(test)]
mod printer;
#[cfg(test)]
mod testing;
#[cfg(test)]
mod wiredump;
