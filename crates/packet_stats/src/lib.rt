//! What the control packets of a capture say, counted in bounded memory: names, outcomes and servers of
//! DNS, clients of DHCP and their leases, groups, their members and the sources that these want or exclude, and
//! neighbors, routers and their prefixes.
#![tactic(auto)]

mod dhcp;
mod dns;
mod entries;
mod groups;
mod icmp6;
mod message;
mod names;
mod neighbors;
mod row;
mod show;
mod stats;
mod subject;
mod sum;
mod table;
mod times;
mod words;

pub use row::MOST_TIMES;
pub use show::show_stats;
pub use stats::Stats;
pub use subject::{FilterMode, IpAddress, MOST_HARDWARE, Source, Subject};
pub use table::{Fault, MOST_ROWS, MOST_SERVERS};
