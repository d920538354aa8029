//! Messages of ICMPv6.

ghost use Rattle.std.specs.Prelude.{OnErr, OnOk};
ghost use Rattle.wirebase.specs.Ipv6Address.{octets_of};
ghost use Rattle.packet_stats.specs.Message.{icmp6_said};
ghost use Rattle.packet_stats.specs.Stats.{CountsAll, CountsSome, state_of};

use crate::stats::Stats;
use crate::subject::IpAddress;
use crate::table::Fault;
use std::alloc::Global;
use wirebase::Ipv6Address;

// The types of reports of multicast listeners (RFC 2710 section 3, RFC 3810 section 5.2).
const OLD_REPORT: u8 = 131;

const NEW_REPORT: u8 = 143;

impl Stats {
    // Counts what a message from an address says.
    pub(crate) fn count_icmp6(
        &mut self,
        alloc: Global,
        source: Ipv6Address,
        octets: &[u8],
    ) -> Result<(), Fault>
        ensures counts { OnOk result (CountsAll (state_of self.old)
            (icmp6_said (octets_of source) octets.now) (state_of self.new)) }
        ensures fault { OnErr result (CountsSome (state_of self.old)
            (icmp6_said (octets_of source) octets.now) (state_of self.new)) }
    {
        if octets.is_empty() {
            return Ok(());
        }
        match octets[0] {
            OLD_REPORT => self.count_old_report(alloc, IpAddress::V6(source), octets),
            NEW_REPORT => self.count_new_report(alloc, IpAddress::V6(source), octets),
            _ => self.count_neighbors(alloc, source, octets),
        }
    }
}
