//! What a message says.

ghost use Rattle.std.specs.Prelude.{OnErr, OnOk};
ghost use Rattle.message_fields.specs.Checksums.{value_of};
ghost use Rattle.packet_stats.specs.Bounds.{IsWithinBounds};
ghost use Rattle.packet_stats.specs.Message.{Breaks, Says, ServiceSays, UdpBreaks, UdpSays};
ghost use Rattle.packet_stats.specs.Stats.{CountsPart, CountsThat, state_of};

use crate::stats::Stats;
use crate::subject::IpAddress;
use crate::table::Fault;
use frame_wire::{Addresses, CapturedUdp};
use message_fields::{Message, Service};
use std::alloc::Global;

impl Stats {
    /// Counts what a message says, as far as its octets are there. The addresses are those of its datagram, the source
    /// first; messages of ICMPv6, and over UDP and TCP, have their own. Where the message answers a question, `after`
    /// is the time from then on in nanoseconds, as `packet_pairs` tells it. No checksum is verified.
    ///
    /// - Of a query of DNS, multicast DNS or LLMNR each question, by its name in lower case and its type; and of a
    ///   response the outcome and the server.
    /// - Of DHCP the client of a request by its hardware address; and of an ACK the address that it leases, the client,
    ///   and the time of the lease where that is told. Of options in several parts the first is read.
    /// - Of a report of IGMP or of multicast listener discovery each group that the host is in, and the host: a record
    ///   of IGMPv3 or MLDv2 says so where it excludes sources, or includes or allows some; and of such a record each
    ///   source that the host wants, or excludes (RFC 3376 section 4.2.12, RFC 3810 section 5.2.12).
    /// - Of neighbor discovery a neighbor's address and its link-layer address of 6 octets: those of the target of a
    ///   neighbor advertisement, and of the source of a solicitation or a router advertisement; and of a router
    ///   advertisement the router, and each prefix in its options.
    ///
    /// Where there is no memory for a row or a time, what the message says is counted up to there.
    pub fn count(
        &mut self,
        alloc: Global,
        message: &Message<'_>,
        addresses: &Addresses,
        after: Option<u64>,
    ) -> Result<(), Fault>
        ensures counts { OnOk result (CountsThat (Says (value_of message.now) addresses.now after)
            (state_of self.old) (state_of self.new)) }
        ensures fault { OnErr result (Breaks (value_of message.now) addresses.now after
            (state_of self.old) (state_of self.new)) }
        ensures bounds { IsWithinBounds (state_of self.new) }
    {
        match message {
            Message::Icmp4(_) => Ok(()),
            Message::Igmp(octets) => {
                self.count_igmp(alloc, IpAddress::source(addresses), octets)
            }
            Message::Icmp6(source, _, octets) => self.count_icmp6(alloc, *source, octets),
            Message::Udp(service, between, octets) => {
                self.count_udp(alloc, *service, between, after, octets)
            }
            Message::Tcp(between, _, octets) => {
                self.count_dns(alloc, IpAddress::source(between), after, octets)
            }
        }
    }

    // Counts what a datagram of UDP says.
    fn count_udp(
        &mut self,
        alloc: Global,
        service: Service,
        between: &Addresses,
        after: Option<u64>,
        octets: &[u8],
    ) -> Result<(), Fault>
        ensures counts { OnOk result (CountsThat (UdpSays service between.now after octets.now)
            (state_of self.old) (state_of self.new)) }
        ensures fault { OnErr result (UdpBreaks service between.now after octets.now
            (state_of self.old) (state_of self.new)) }
    {
        match CapturedUdp::parse(octets) {
            Ok(datagram) => {
                self.count_service(
                    alloc,
                    service,
                    IpAddress::source(between),
                    after,
                    datagram.payload,
                )
            }
            Err(_) => Ok(()),
        }
    }

    // Counts what the payload of a datagram of a service says.
    fn count_service(
        &mut self,
        alloc: Global,
        service: Service,
        source: IpAddress,
        after: Option<u64>,
        octets: &[u8],
    ) -> Result<(), Fault>
        ensures counts { OnOk result (CountsThat (ServiceSays service source after octets.now)
            (state_of self.old) (state_of self.new)) }
        ensures fault { OnErr result (CountsPart (ServiceSays service source after octets.now)
            (state_of self.old) (state_of self.new)) }
    {
        match service {
            Service::Nbns => Ok(()),
            Service::Dhcp => self.count_dhcp(alloc, octets),
            Service::Dns | Service::Mdns | Service::Llmnr => self.count_dns(
                alloc, source, after, octets,
            ),
        }
    }
}
