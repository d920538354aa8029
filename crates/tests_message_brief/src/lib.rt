//! The tests of `message_brief`, over its public calls.
#![tactic(auto)]

#[cfg(test)]
mod messages;
#[cfg(test)]
mod testing;
