//! The variables of a host for its link, an Ethernet, which routers advertise (RFC 4861 sections 6.3.2 and 6.3.4).

ghost use Rattle.std.specs.Prelude.{◌≡◌};
ghost use Rattle.examples.specs.LinkParameters.{default_parameters, learned, mtu_of, time_of};

use crate::router::RouterInformation;
use control_wire::Duration;

// The MTUs that a link may have: that which every link of IPv6 has (RFC 8200 section 5), and that of an Ethernet (RFC
// 2464 section 2).
const LEAST_MTU: u32 = 1_280;

const MOST_MTU: u32 = 1_500;

/// The variables of a host for its link.
#[derive(Debug, PartialEq, Eq, Clone, Copy)]
pub struct LinkParameters {
    /// The hop limit of packets that are sent.
    pub hop_limit: u8,
    /// The bytes of the largest packet: 1,280 to 1,500.
    pub mtu: u32,
    /// How long a neighbor counts as reachable that was heard: the base of that time.
    pub reachable_time: Duration,
    /// The time between solicitations.
    pub retrans_time: Duration,
}

impl LinkParameters {
    /// Those of a host that has heard no router (RFC 4861 section 10; the hop limit is that of RFC 1700).
    pub fn new() -> LinkParameters
        ensures { result ≡ default_parameters }
    {
        LinkParameters {
            hop_limit: 64,
            mtu: MOST_MTU,
            reachable_time: Duration::from_secs(30),
            retrans_time: Duration::from_secs(1),
        }
    }

    /// Takes what a router tells: a zero leaves what was told before, and so does an MTU that the link can't have.
    pub fn learn(&mut self, told: &RouterInformation)
        ensures { self.new ≡ learned told.now self.old }
    {
        if told.hop_limit != 0 {
            self.hop_limit = told.hop_limit;
        }
        self.mtu = mtu_of(told.mtu, self.mtu);
        self.reachable_time = time_of(told.reachable_time, self.reachable_time);
        self.retrans_time = time_of(told.retrans_time, self.retrans_time);
    }
}

// The MTU that is told, where the link can have it.
fn mtu_of(told: Option<u32>, before: u32) -> u32
    ensures { result ≡ mtu_of told before }
{
    match told {
        Some(mtu) => {
            if mtu < LEAST_MTU || mtu > MOST_MTU {
                before
            } else {
                mtu
            }
        }
        None => before,
    }
}

// The time that is told, where it is not zero.
fn time_of(told: Duration, before: Duration) -> Duration
    ensures { result ≡ time_of told before }
{
    if told.total_micros() == 0 {
        before
    } else {
        told
    }
}
