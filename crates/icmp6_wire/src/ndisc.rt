//! Neighbor discovery (RFC 4861): the fields of its messages after the checksum.
//!
//! ```
//! use control_wire::icmpv6::{Packet, Repr as Icmpv6Repr};
//! use control_wire::ndisc::Repr;
//! use control_wire::{
//!     ChecksumCapabilities, EthernetAddress, IPV6_LINK_LOCAL_ALL_ROUTERS, Ipv6Address,
//! };
//!
//! let src_addr = Ipv6Address::new(0xfe80, 0, 0, 0, 0, 0, 0, 1);
//! let dst_addr = IPV6_LINK_LOCAL_ALL_ROUTERS;
//! let checksums = ChecksumCapabilities::default();
//! let ethernet = EthernetAddress([0x52, 0x54, 0, 0, 0, 1]);
//! let solicit = Repr::RouterSolicit { lladdr: Some(ethernet.into()) };
//! let message = Icmpv6Repr::Ndisc(solicit);
//! let mut octets = [0; 64];
//! let octets = &mut octets[..message.packet_len()];
//! message.emit_into(&src_addr, &dst_addr, octets, &checksums);
//! assert_eq!(octets.len(), 16);
//!
//! let packet = Packet::new_checked(&*octets)?;
//! assert_eq!(Repr::parse(&packet)?, solicit);
//! # Ok::<(), control_wire::Error>(())
//! ```

ghost use Rattle.std.specs.Prelude.{◌≡◌, ◌*◌, ◌≤◌, [], ◌∷◌};
ghost use Rattle.byteorder.specs.Endian.{big_bytes};
ghost use Rattle.wirebase.specs.Bytes.{Reaches, bytes_of, byte_of, number_of};
ghost use Rattle.wirebase.specs.Duration.{micros_of, millis_of, seconds_of};
ghost use Rattle.wirebase.specs.Ipv6Address.{octets_of};
ghost use Rattle.wirebase.specs.View.{Sets, KeepsLen};
ghost use Rattle.icmp6_wire.specs.Icmpv6Packet.{inner};
ghost use Rattle.icmp6_wire.specs.NdiscPacket.{hop_limit_field, router_flags_field, router_lifetime_field};
ghost use Rattle.icmp6_wire.specs.NdiscPacket.{reachable_time_field, retrans_time_field, neighbor_flags_field};
ghost use Rattle.icmp6_wire.specs.NdiscPacket.{target_addr_field, dest_addr_field};
ghost use Rattle.icmp6_wire.specs.NdiscTables.{router_bits, neighbor_bits, known_router, known_neighbor};

use crate::icmpv6::Packet;
use bitflags::Flags as _;
use opt_wire::ndiscoption::NdiscOptions;
use wirebase::{Duration, Ipv6Address, Octets, OctetsMut};

mod display;
mod flags;
mod options;
mod options_seen;
mod reading;
mod refusal;
mod repr;

pub use flags::{NeighborFlags, RouterFlags};
pub(crate) use options_seen::OptionsSeen;
pub(crate) use reading::{
    neighbor_advert, neighbor_solicit, redirect, router_advert, router_solicit,
};
pub use refusal::Refusal;
pub use repr::Repr;

// The fields after the checksum (RFC 4861 section 4); their picture is in specs/NdiscPacket.antt.
mod field {
    use wirebase::Field;

    pub const HOP_LIMIT: Field = 4..5;

    pub const ROUTER_FLAGS: Field = 5..6;

    pub const ROUTER_LIFETIME: Field = 6..8;

    pub const REACHABLE_TIME: Field = 8..12;

    pub const RETRANS_TIME: Field = 12..16;

    pub const NEIGHBOR_FLAGS: Field = 4..5;

    // The end of the word that is reserved in solicitations and redirects.
    pub const RESERVED_END: usize = 8;

    pub const TARGET_ADDR: Field = 8..24;

    pub const DEST_ADDR: Field = 24..40;
}

impl<T: Octets> Packet<T> {
    /// The hop limit that a router advertisement asks hosts to set, 0 for none. Requires at least 5 bytes.
    pub fn current_hop_limit(&self) -> u8
        requires { Reaches hop_limit_field (T.bytes (inner self.now)) }
        ensures { result ≡ byte_of hop_limit_field (T.bytes (inner self.now)) }
    {
        self.buffer.u8_at(field::HOP_LIMIT)
    }

    /// The flags of a router advertisement that have a name. Requires at least 6 bytes.
    #[tactic(auto, unfolding(bitflags::specs::Sets::known_from))]
    pub fn router_flags(&self) -> RouterFlags
        requires { Reaches router_flags_field (T.bytes (inner self.now)) }
        ensures { router_bits result
            ≡ known_router (byte_of router_flags_field (T.bytes (inner self.now))) }
    {
        RouterFlags::from_bits_truncate(self.buffer.u8_at(field::ROUTER_FLAGS))
    }

    /// How long the sender of a router advertisement is a default router, in whole seconds. Requires at least 8 bytes.
    pub fn router_lifetime(&self) -> Duration
        requires { Reaches router_lifetime_field (T.bytes (inner self.now)) }
        ensures { micros_of result ≡ 1000000 * number_of router_lifetime_field (T.bytes (inner self.now)) }
    {
        Duration::from_secs(self.buffer.u16_at(field::ROUTER_LIFETIME) as u64)
    }

    /// How long a neighbor counts as reachable, in whole milliseconds; 0 where it is unspecified. Requires at least 12
    /// bytes.
    pub fn reachable_time(&self) -> Duration
        requires { Reaches reachable_time_field (T.bytes (inner self.now)) }
        ensures { micros_of result ≡ 1000 * number_of reachable_time_field (T.bytes (inner self.now)) }
    {
        Duration::from_millis(self.buffer.u32_at(field::REACHABLE_TIME) as u64)
    }

    /// The time between solicitations, in whole milliseconds; 0 where it is unspecified. Requires at least 16 bytes.
    pub fn retrans_time(&self) -> Duration
        requires { Reaches retrans_time_field (T.bytes (inner self.now)) }
        ensures { micros_of result ≡ 1000 * number_of retrans_time_field (T.bytes (inner self.now)) }
    {
        Duration::from_millis(self.buffer.u32_at(field::RETRANS_TIME) as u64)
    }

    /// The target address of a neighbor message or a redirect. Requires at least 24 bytes.
    pub fn target_addr(&self) -> Ipv6Address
        requires { Reaches target_addr_field (T.bytes (inner self.now)) }
        ensures { octets_of result ≡ bytes_of target_addr_field (T.bytes (inner self.now)) }
    {
        Ipv6Address::from_octets(self.buffer.field(field::TARGET_ADDR).try_into().unwrap())
    }

    /// The flags of a neighbor advertisement that have a name. Requires at least 5 bytes.
    #[tactic(auto, unfolding(bitflags::specs::Sets::known_from))]
    pub fn neighbor_flags(&self) -> NeighborFlags
        requires { Reaches neighbor_flags_field (T.bytes (inner self.now)) }
        ensures { neighbor_bits result
            ≡ known_neighbor (byte_of neighbor_flags_field (T.bytes (inner self.now))) }
    {
        NeighborFlags::from_bits_truncate(self.buffer.u8_at(field::NEIGHBOR_FLAGS))
    }

    /// The destination address of a redirect. Requires at least 40 bytes.
    pub fn dest_addr(&self) -> Ipv6Address
        requires { Reaches dest_addr_field (T.bytes (inner self.now)) }
        ensures { octets_of result ≡ bytes_of dest_addr_field (T.bytes (inner self.now)) }
    {
        Ipv6Address::from_octets(self.buffer.field(field::DEST_ADDR).try_into().unwrap())
    }
}

impl<'a> Packet<&'a [u8]> {
    ghost use Rattle.std.specs.Prelude.{length};
    ghost use Rattle.wirebase.specs.Icmp.{type_field};
    ghost use Rattle.opt_wire.specs.NdiscOptionBlocks.{Tile};
    ghost use Rattle.icmp6_wire.specs.Icmpv6Packet.{view_octets, header_len_in, payload_in};

    /// The options of a message of neighbor discovery in turn, also those of unknown types: its payload (RFC 4861
    /// section 4). Requires the header of the type.
    ///
    /// ```
    /// use control_wire::icmpv6::Packet;
    /// use control_wire::ndiscoption::Repr;
    ///
    /// // A router solicitation with a nonce (RFC 3971 section 5.3.2).
    /// let octets = [133, 0, 0, 0, 0, 0, 0, 0, 14, 1, 1, 2, 3, 4, 5, 6];
    /// let packet = Packet::new_checked(&octets[..])?;
    /// let nonce = Repr::Unknown { type_: 14, length: 1, data: &[1, 2, 3, 4, 5, 6] };
    /// assert!(packet.ndisc_options().eq([Ok(nonce)]));
    /// # Ok::<(), control_wire::Error>(())
    /// ```
    pub fn ndisc_options(&self) -> NdiscOptions<'a>
        requires kind { Reaches type_field (view_octets self.now) }
        requires whole { header_len_in (view_octets self.now) ≤ length (view_octets self.now) }
        ensures { Tile (payload_in (view_octets self.now)) result }
    {
        NdiscOptions::new(self.payload())
    }
}

impl<T: OctetsMut> Packet<T> {
    /// Writes the hop limit that hosts are to set. Requires at least 5 bytes.
    pub fn set_current_hop_limit(&mut self, value: u8)
        requires { Reaches hop_limit_field (T.bytes (inner self.old)) }
        ensures writes { Sets inner T.bytes T.put self.old self.new hop_limit_field (value ∷ []) }
        ensures len { KeepsLen inner T.bytes self.old self.new }
    {
        self.buffer.set_u8(field::HOP_LIMIT, value);
    }

    /// Writes the flags of a router advertisement, all their bits. Requires at least 6 bytes.
    pub fn set_router_flags(&mut self, flags: RouterFlags)
        requires { Reaches router_flags_field (T.bytes (inner self.old)) }
        ensures writes { Sets inner T.bytes T.put self.old self.new router_flags_field
            (router_bits flags ∷ []) }
        ensures len { KeepsLen inner T.bytes self.old self.new }
    {
        self.buffer.set_u8(field::ROUTER_FLAGS, flags.bits());
    }

    /// Writes how long the sender is a default router, in whole seconds; a fraction is dropped. Requires at least 8
    /// bytes, and 65,535 seconds at most.
    pub fn set_router_lifetime(&mut self, value: Duration)
        requires room { Reaches router_lifetime_field (T.bytes (inner self.old)) }
        requires fits { seconds_of value ≤ 65535 }
        ensures writes { Sets inner T.bytes T.put self.old self.new router_lifetime_field
            (big_bytes 2 (seconds_of value)) }
        ensures len { KeepsLen inner T.bytes self.old self.new }
    {
        self.buffer
            .set_u16(field::ROUTER_LIFETIME, value.secs() as u16);
    }

    /// Writes how long a neighbor counts as reachable, in whole milliseconds; a fraction is dropped. Requires at least
    /// 12 bytes, and 4,294,967,295 milliseconds at most.
    pub fn set_reachable_time(&mut self, value: Duration)
        requires room { Reaches reachable_time_field (T.bytes (inner self.old)) }
        requires fits { millis_of value ≤ 4294967295 }
        ensures writes { Sets inner T.bytes T.put self.old self.new reachable_time_field
            (big_bytes 4 (millis_of value)) }
        ensures len { KeepsLen inner T.bytes self.old self.new }
    {
        self.buffer
            .set_u32(field::REACHABLE_TIME, value.total_millis() as u32);
    }

    /// Writes the time between solicitations, in whole milliseconds; a fraction is dropped. Requires at least 16 bytes,
    /// and 4,294,967,295 milliseconds at most.
    pub fn set_retrans_time(&mut self, value: Duration)
        requires room { Reaches retrans_time_field (T.bytes (inner self.old)) }
        requires fits { millis_of value ≤ 4294967295 }
        ensures writes { Sets inner T.bytes T.put self.old self.new retrans_time_field
            (big_bytes 4 (millis_of value)) }
        ensures len { KeepsLen inner T.bytes self.old self.new }
    {
        self.buffer
            .set_u32(field::RETRANS_TIME, value.total_millis() as u32);
    }

    /// Writes the target address of a neighbor message or a redirect. Requires at least 24 bytes.
    pub fn set_target_addr(&mut self, value: Ipv6Address)
        requires { Reaches target_addr_field (T.bytes (inner self.old)) }
        ensures writes { Sets inner T.bytes T.put self.old self.new target_addr_field (octets_of value) }
        ensures len { KeepsLen inner T.bytes self.old self.new }
    {
        self.buffer.set_bytes(field::TARGET_ADDR, &value.octets());
    }

    /// Writes the flags of a neighbor advertisement, all their bits. Requires at least 5 bytes.
    pub fn set_neighbor_flags(&mut self, flags: NeighborFlags)
        requires { Reaches neighbor_flags_field (T.bytes (inner self.old)) }
        ensures writes { Sets inner T.bytes T.put self.old self.new neighbor_flags_field
            (neighbor_bits flags ∷ []) }
        ensures len { KeepsLen inner T.bytes self.old self.new }
    {
        self.buffer.set_u8(field::NEIGHBOR_FLAGS, flags.bits());
    }

    /// Writes the destination address of a redirect. Requires at least 40 bytes.
    pub fn set_dest_addr(&mut self, value: Ipv6Address)
        requires { Reaches dest_addr_field (T.bytes (inner self.old)) }
        ensures writes { Sets inner T.bytes T.put self.old self.new dest_addr_field (octets_of value) }
        ensures len { KeepsLen inner T.bytes self.old self.new }
    {
        self.buffer.set_bytes(field::DEST_ADDR, &value.octets());
    }
}
