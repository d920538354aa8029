//! The fields of ICMP messages, in lines or in JSON.
#![tactic(auto)]

mod extended_echo;
mod extensions;
mod icmp;
pub mod icmp4;
pub mod icmp6;
pub mod icmp_names;
mod node_information;
pub mod protocol_names;
mod queries;
pub mod quote;
pub mod refusal;
mod texts;
