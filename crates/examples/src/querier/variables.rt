//! The variables of a querier (RFC 3376 section 8, RFC 3810 section 9), the times that follow from them, and the
//! queries that state them.

ghost use Rattle.std.specs.Prelude.{◌≡◌, ◌≤◌, ◌*◌, length};
ghost use Rattle.group_wire.specs.Family.{width};
ghost use Rattle.group_wire.specs.Membership.{value_of};
ghost use Rattle.group_wire.specs.Sources.{octets_in};
ghost use Rattle.group_wire.specs.Times.{interval_seconds, query_millis};
ghost use Rattle.examples.specs.QuerierVariables.{code_in, group_in, interval_after, older_query_of, query_of};
ghost use Rattle.examples.specs.QuerierVariables.{source_in, times_of};

use super::Asked;
use super::reception::RouterAddress;
use control_wire::Ipv4Address;
use group_wire::{Membership, Message, Query, Sources};

/// The variables, as queries state them: codes, which are the numbers themselves where those are below 128, in response
/// times of MLD below 32,768.
#[derive(Debug, PartialEq, Eq, Clone, Copy)]
pub struct Variables {
    /// The robustness variable, at least 1 and by default 2. A query states one above 7 as 0.
    pub robustness: u8,
    /// The query interval, by default 125 seconds.
    pub interval_code: u8,
    /// The query response interval, by default 10 seconds, which is 100 in IGMP and 10,000 in MLD. In IGMP below 256.
    pub response_code: u16,
    /// The last member query interval, by default 1 second, which is 10 in IGMP and 1,000 in MLD. In IGMP below 256.
    pub last_member_code: u16,
}

/// The times, in milliseconds.
#[derive(Debug, PartialEq, Eq, Clone, Copy)]
pub struct Times {
    /// How many general queries are sent at start, and how many queries of a group after a host left it: the robustness
    /// variable.
    pub robustness: u8,
    /// From a general query to the next.
    pub interval: u64,
    /// From a general query to the next at start.
    pub startup_interval: u64,
    /// How long a report counts: the group membership interval, in MLD the multicast address listening interval.
    pub membership: u64,
    /// How long another router counts as the querier after its query.
    pub other_querier: u64,
    /// From a query of a group to the next.
    pub last_member_interval: u64,
    /// How long a group counts after a host left it, where no other reports it.
    pub last_member_time: u64,
}

impl Times {
    // From a general query to the next, where so many are left of those at start, this one among them.
    pub(crate) fn after(&self, startup: u8) -> u64
        ensures { result ≡ interval_after self.now startup }
    {
        if startup > 1 {
            self.startup_interval
        } else {
            self.interval
        }
    }
}

impl Variables {
    /// The times that follow from the variables.
    pub fn times<A: RouterAddress>(&self) -> Times
        ensures { result ≡ times_of A.family self.now }
    {
        let interval = interval(self.interval_code);
        let response = response_time::<A>(self.response_code);
        let last_member_interval = response_time::<A>(self.last_member_code);
        let intervals = self.robustness as u64 * interval;
        Times {
            robustness: self.robustness,
            interval,
            startup_interval: interval / 4,
            membership: intervals + response,
            other_querier: intervals + response / 2,
            last_member_interval,
            last_member_time: self.robustness as u64 * last_member_interval,
        }
    }

    /// The query of version 3 of IGMP or of version 2 of MLD. Its source, where it asks about one, is written over the
    /// front of the octets. Requires as many as an address has.
    pub fn query<'a, A: RouterAddress>(
        &self,
        asked: &Asked<A>,
        octets: &'a mut [u8],
    ) -> Membership<'a, A>
        requires { width A.family ≤ length octets.old }
        ensures { value_of A.bytes result ≡ query_of A.bytes A.family self.now asked.now }
    {
        Message::Query(Query {
            max_resp_code: self.code(asked),
            group: group(asked),
            s_flag: false,
            qrv: self.robustness,
            qqic: self.interval_code,
            sources: source(asked, octets),
        })
    }

    /// The query of version 2 of IGMP or of version 1 of MLD, which asks about the group also where it is to ask about
    /// a source.
    pub fn older_query<A: RouterAddress>(&self, asked: &Asked<A>) -> Membership<'static, A>
        ensures { value_of A.bytes result ≡ older_query_of A.bytes A.family self.now asked.now }
    {
        Message::OlderQuery {
            max_resp_code: self.code(asked),
            group: group(asked),
        }
    }

    // The code of the response time.
    fn code<A>(&self, asked: &Asked<A>) -> u16
        ensures { result ≡ code_in self.now asked.now }
    {
        match asked {
            Asked::All => self.response_code,
            Asked::Reception(_) => self.last_member_code,
        }
    }
}

// The group that is asked about.
fn group<A: RouterAddress>(asked: &Asked<A>) -> A
    ensures { A.bytes result ≡ group_in A.bytes A.family asked.now }
{
    match asked {
        Asked::All => A::unspecified(),
        Asked::Reception(key) => key.group,
    }
}

// The source that is asked about.
fn source<'a, A: RouterAddress>(asked: &Asked<A>, octets: &'a mut [u8]) -> Sources<'a, A>
    requires { width A.family ≤ length octets.old }
    ensures { octets_in result ≡ source_in A.bytes asked.now }
{
    let Asked::Reception(key) = asked else {
        return Sources::none();
    };
    match key.source {
        Some(source) => source.as_source(octets),
        None => Sources::none(),
    }
}

// The time of a response code.
fn response_time<A: RouterAddress>(code: u16) -> u64
    ensures value { result ≡ query_millis A.family code }
    ensures most { result ≤ 8387584 }
{
    let query: Membership<'static, A> = Message::Query(Query {
        max_resp_code: code,
        ..any_query()
    });
    match query.max_resp_time() {
        Some(time) => time.total_millis(),
        None => 0,
    }
}

// The time of the code of a query interval.
fn interval(code: u8) -> u64
    ensures value { result ≡ 1000 * interval_seconds code }
    ensures most { result ≤ 31744000 }
{
    let query: Query<'static, Ipv4Address> = Query {
        qqic: code,
        ..any_query()
    };
    1_000 * query.interval().secs()
}

// A query whose codes are zero.
fn any_query<A: RouterAddress>() -> Query<'static, A> {
    Query {
        max_resp_code: 0,
        group: A::unspecified(),
        s_flag: false,
        qrv: 0,
        qqic: 0,
        sources: Sources::none(),
    }
}
