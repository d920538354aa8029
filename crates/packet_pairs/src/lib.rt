//! Which message answers which: questions and answers of DNS and its kin, echoes, DHCP and neighbor discovery, paired
//! in bounded memory.
#![tactic(auto)]

mod echo;
mod elapsed;
mod exchange;
mod key;
mod lease;
mod names;
mod neighbor;
mod pairs;
mod search;
mod show;
mod sum;
mod unanswered;

pub use exchange::{Exchange, Role, exchange_of};
pub use key::{EchoKey, Key, LeaseKey, NameKey, NeighborKey, NetbiosKey, Reply, Way};
pub use pairs::{Answered, Asked, Fault, MOST_ANSWERED, MOST_WAITING, Pairs};
pub use show::{Nanoseconds, show_answered};
pub use unanswered::show_asked;
