//! What messages of control protocols say, on a line each.
#![tactic(auto)]

mod dhcp;
mod dns;
mod groups;
mod icmp;
mod messages;
mod neighbors;
mod quote;
mod words;

pub use messages::{show_brief, show_cut_brief};
