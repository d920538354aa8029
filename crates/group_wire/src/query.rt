//! Queries (RFC 3376 section 4.1, RFC 3810 section 5.1).

use crate::address::Address;
use crate::sources::Sources;

// The bit of the flag S; the bits below it are the robustness variable.
pub(crate) const S_FLAG: u8 = 0x08;

/// A query of the newest version: a router asks which groups have members, whether this one has, or whether anyone
/// listens to these sources of it.
#[derive(Debug, PartialEq, Eq, Clone, Copy)]
pub struct Query<'a, A: Address> {
    /// The code of the maximum response time: below 256 in IGMP.
    pub max_resp_code: u16,
    /// The group, or the unspecified address for all.
    pub group: A,
    /// Routers that hear it do not change their timers.
    pub s_flag: bool,
    /// The querier's robustness variable, 0 to 7; 0 says that it is larger than 7, and a larger one is written as 0
    /// (RFC 3376 section 4.1.6, RFC 3810 section 5.1.8).
    pub qrv: u8,
    /// The code of the querier's interval, in seconds.
    pub qqic: u8,
    /// The sources that it asks about.
    pub sources: Sources<'a, A>,
}
