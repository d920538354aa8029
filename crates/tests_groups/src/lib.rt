//! The tests of `group_wire`, over its public calls.
#![tactic(auto)]

#[cfg(test)]
mod messages;
#[cfg(test)]
mod queries;
#[cfg(test)]
mod records;
#[cfg(test)]
mod testing;
#[cfg(test)]
mod times;
