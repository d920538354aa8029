//! The control-protocol wire layer of smoltcp, proved: each module under its name, the base types, and the aliases of
//! the modules' items. The definitions that its contracts cite are in the `specs/` of the re-exported crates;
//! `specs/Lib.antt` re-exports them file by file, so that a user's contracts cite them as `Rattle.control_wire.specs`.
#![tactic(auto)]

pub mod icmp;

pub use dhcp_wire::dhcpv4;
pub use dns_wire::dns;
pub use icmp4_wire::{icmpv4, igmp};
pub use icmp6_wire::icmpv6::Repr as Icmpv6Repr;
pub use icmp6_wire::mld::Repr as MldRepr;
pub use icmp6_wire::ndisc::Repr as NdiscRepr;
pub use icmp6_wire::{icmpv6, mld, ndisc};
pub use opt_wire::ipv6option::{Ipv6Option, Ipv6OptionsIterator, Repr as Ipv6OptionRepr};
pub use opt_wire::ndiscoption::{
    NdiscOption, PrefixInformation as NdiscPrefixInformation,
    RedirectedHeader as NdiscRedirectedHeader, Repr as NdiscOptionRepr,
};
pub use opt_wire::{ipv6ext_header, ipv6hbh, ipv6option, ndiscoption};
pub use wirebase::{
    ByteWriter, Checksum, ChecksumCapabilities, Duration, Error, EthernetAddress, Field, Hardware,
    IPV6_HBH_MAX_OPTIONS, IPV6_HEADER_LEN, IPV6_LINK_LOCAL_ALL_NODES, IPV6_LINK_LOCAL_ALL_ROUTERS,
    IPV6_MIN_MTU, IpProtocol, Ipv4Address, Ipv4Packet, Ipv4Repr, Ipv6Address, Ipv6Packet,
    Ipv6Refusal, Ipv6Repr, MAX_HARDWARE_ADDRESS_LEN, Octets, OctetsMut, RawHardwareAddress, Result,
    are_bytes, checksum, octets,
};
