//! The tests of `dump_captures`, and of the endpoints and ports that the crates below it print, over public calls.
#![tactic(auto)]

#[cfg(test)]
mod endpoint;
#[cfg(test)]
mod pcapdump;
#[cfg(test)]
mod ports;
#[cfg(test)]
mod testing;
