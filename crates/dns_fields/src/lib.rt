//! The fields of DNS messages, and of the NetBIOS name service, in lines or in JSON.
#![tactic(auto)]

mod edns;
pub mod header;
pub mod kind;
mod lists;
pub mod message;
pub mod nbns;
mod netbios;
pub mod node;
pub mod record;
pub mod unread;
mod words;
