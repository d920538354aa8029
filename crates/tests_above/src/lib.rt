//! The tests of `quote_wire`, `record_wire` and `frame_wire`, over their public calls.
#![tactic(auto)]

#[cfg(test)]
mod frame;
#[cfg(test)]
mod quote;
#[cfg(test)]
mod record;
#[cfg(test)]
mod testing;
