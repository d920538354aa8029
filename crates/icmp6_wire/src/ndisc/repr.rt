//! Messages as values (RFC 4861 sections 4.1 to 4.5).

ghost use Rattle.std.specs.Prelude.{◌≡◌, ◌+◌, ◌<◌, ◌≤◌, ◌^◌, [], ◌∷◌, length, IsOk, IfOk, IfErr, IsOkAnd};
ghost use Rattle.std.specs.Option.{option_map};
ghost use Rattle.wirebase.specs.ByteWriter.{free, Puts, be8, be16, be32};
ghost use Rattle.wirebase.specs.Duration.{millis_of, seconds_of};
ghost use Rattle.wirebase.specs.Format.{Rewrites, SameText};
ghost use Rattle.opt_wire.specs.NdiscOptionRepr.{CanEmit as CanEmitOption};
ghost use Rattle.icmp6_wire.specs.Icmpv6Packet.{inner, view_octets};
ghost use Rattle.icmp6_wire.specs.Ndisc.{NdiscValue, value_of, sources, targets, mtus, prefixes, packets, options_of};
ghost use Rattle.icmp6_wire.specs.Ndisc.{option_lens, option_texts, header_len, header_fields, Each, HaveTimes};
ghost use Rattle.icmp6_wire.specs.Ndisc.{message_fields, text, text_len, CanEmit, IsMessage, format, Emits};
ghost use Rattle.icmp6_wire.specs.NdiscOptionsSeen.{link_of, packet_of};
ghost use Rattle.icmp6_wire.specs.NdiscRefusal.{Refuses};
ghost use Rattle.icmp6_wire.specs.Icmpv6Tables.{message_number};
ghost use Rattle.icmp6_wire.specs.NdiscTables.{router_bits, neighbor_bits};

use super::field;
use super::flags::{NeighborFlags, RouterFlags};
use super::options::{
    mtu_len, prefix_len, put_mtu, put_prefix, put_redirected, put_source, put_target,
    redirected_len, source_len, target_len,
};
use super::options_seen::OptionsSeen;
use super::reading::{neighbor_advert, neighbor_solicit, redirect, router_advert, router_solicit};
use super::refusal::{Refusal, why_option};
use crate::icmpv6;
use crate::icmpv6::{Message, Packet};
use crate::writing::put_address;
use bitflags::Flags as _;
use opt_wire::ndiscoption::{PrefixInformation, RedirectedHeader};
use wirebase::{
    ByteWriter, Duration, Error, Ipv6Address, OctetsMut, RawHardwareAddress, Result, are_bytes,
    icmp,
};

/// A message (RFC 4861 section 4). Each option may be absent; of several of one kind the last is read.
///
/// ```
/// use control_wire::icmpv6::Packet;
/// use control_wire::ndisc::Repr;
///
/// /// The lifetime of the default router, in seconds, that a router advertisement tells.
/// fn lifetime(octets: &[u8]) -> Option<u64> {
///     let packet = Packet::new_checked(octets).ok()?;
///     match Repr::parse(&packet).ok()? {
///         Repr::RouterAdvert { router_lifetime, .. } => Some(router_lifetime.secs()),
///         _ => None,
///     }
/// }
///
/// let advert = [134, 0, 0, 0, 64, 0, 0x07, 0x08, 0, 0, 0, 0, 0, 0, 0, 0];
/// assert_eq!(lifetime(&advert), Some(1800));
/// assert_eq!(lifetime(&advert[..12]), None);
/// ```
#[derive(Debug, PartialEq, Eq, Clone, Copy)]
pub enum Repr<'a> {
    /// A host asks the routers to advertise themselves.
    RouterSolicit {
        /// The link-layer address of the sender.
        lladdr: Option<RawHardwareAddress>,
    },
    /// A router advertises itself.
    RouterAdvert {
        /// The hop limit that hosts are to set, 0 for none.
        hop_limit: u8,
        /// The flags.
        flags: RouterFlags,
        /// How long the sender is a default router, sent in whole seconds.
        router_lifetime: Duration,
        /// How long a neighbor counts as reachable, sent in whole milliseconds; 0 where it is unspecified.
        reachable_time: Duration,
        /// The time between solicitations, sent in whole milliseconds; 0 where it is unspecified.
        retrans_time: Duration,
        /// The link-layer address of the sender.
        lladdr: Option<RawHardwareAddress>,
        /// The MTU of the link, in bytes.
        mtu: Option<u32>,
        /// A prefix of the link: the last such option.
        prefix_info: Option<PrefixInformation>,
    },
    /// A host asks for the link-layer address of the neighbor that has an address.
    NeighborSolicit {
        /// The address whose link-layer address is asked for.
        target_addr: Ipv6Address,
        /// The link-layer address of the sender.
        lladdr: Option<RawHardwareAddress>,
    },
    /// A neighbor gives its link-layer address.
    NeighborAdvert {
        /// The flags.
        flags: NeighborFlags,
        /// The address whose link-layer address is given.
        target_addr: Ipv6Address,
        /// The link-layer address of the target.
        lladdr: Option<RawHardwareAddress>,
    },
    /// A router announces a better first hop.
    Redirect {
        /// The better first hop.
        target_addr: Ipv6Address,
        /// The destination that it is better for.
        dest_addr: Ipv6Address,
        /// The link-layer address of the target.
        lladdr: Option<RawHardwareAddress>,
        /// The packet that the redirect answers.
        redirected_hdr: Option<RedirectedHeader<'a>>,
    },
}

impl<'a> Repr<'a> {
    /// The message in the octets. Refused where they don't begin with the header of their type, where that type is none
    /// of neighbor discovery, and where what follows isn't whole options one after another. An option that can't be
    /// read is dropped, and so are flags without a name; code and checksum are not checked.
    pub fn parse(packet: &Packet<&'a [u8]>) -> Result<Repr<'a>>
        ensures sound { IfOk result (λ repr. IsMessage (view_octets packet.now) (value_of repr)) }
        ensures complete { (value : NdiscValue) → IsMessage (view_octets packet.now) value
            → IsOkAnd result (λ repr. value_of repr ≡ value) }
        ensures rewrites { length (view_octets packet.now) ≤ 65515
            → IfOk result (λ repr. Rewrites format (value_of repr)) }
    {
        are_bytes(packet.buffer);
        match Repr::read(packet) {
            Ok(repr) => Ok(repr),
            Err(_) => Err(Error),
        }
    }

    // The message in the octets, or the first check that fails.
    pub(crate) fn read(packet: &Packet<&'a [u8]>) -> std::result::Result<Repr<'a>, Refusal>
        ensures sound { IfOk result (λ repr. IsMessage (view_octets packet.now) (value_of repr)) }
        ensures reads { (value : NdiscValue) → IsMessage (view_octets packet.now) value
            → IsOk result }
        ensures told { IfErr result (Refuses (view_octets packet.now)) }
    {
        let octets = packet.buffer;
        if octets.len() < icmpv6::field::HEADER_END {
            return Err(Refusal::Short);
        }
        let kind = packet.msg_type();
        if !kind.is_ndisc() {
            return Err(Refusal::UnknownType(octets[icmpv6::field::TYPE.start]));
        }
        let header_len = packet.header_len();
        if octets.len() < header_len {
            return Err(Refusal::Length);
        }
        let mut found = OptionsSeen::nothing();
        if found.add_all(packet.behind(kind)).is_err() {
            return Err(why_option(octets, header_len));
        }
        // Each arm returns, so that the value is written once, in the caller's slot.
        match kind {
            Message::RouterSolicit => return Ok(router_solicit(packet, &found)),
            Message::RouterAdvert => return Ok(router_advert(packet, &found)),
            Message::NeighborSolicit => return Ok(neighbor_solicit(packet, &found)),
            Message::NeighborAdvert => return Ok(neighbor_advert(packet, &found)),
            _ => return Ok(redirect(packet, &found)),
        }
    }

    /// The bytes that the message takes: its header, and whole units of options. Requires that their number fits a
    /// `usize`.
    #[tactic(auto, using(crate::proofs::NdiscTexts::texts))]
    pub fn buffer_len(&self) -> usize
        requires { text_len (value_of self.now) < 2 ^ 64 }
        ensures value { result ≡ text_len (value_of self.now) }
        ensures exact { result ≡ length (text (value_of self.now)) }
    {
        self.header_len() + self.options_len()
    }

    // The bytes of the header.
    fn header_len(&self) -> usize
        ensures { result ≡ header_len (value_of self.now) }
    {
        match self {
            Repr::RouterSolicit { .. } => field::RESERVED_END,
            Repr::RouterAdvert { .. } => field::RETRANS_TIME.end,
            Repr::NeighborSolicit { .. } => field::TARGET_ADDR.end,
            Repr::NeighborAdvert { .. } => field::TARGET_ADDR.end,
            Repr::Redirect { .. } => field::DEST_ADDR.end,
        }
    }

    // The bytes of the options.
    fn options_len(&self) -> usize
        requires { option_lens (options_of (value_of self.now)) < 2 ^ 64 }
        ensures { result ≡ option_lens (options_of (value_of self.now)) }
    {
        match self {
            Repr::RouterSolicit { lladdr } => source_len(lladdr),
            Repr::RouterAdvert {
                lladdr,
                mtu,
                prefix_info,
                ..
            } => router_options_len(lladdr, mtu, prefix_info),
            Repr::NeighborSolicit { lladdr, .. } => source_len(lladdr),
            Repr::NeighborAdvert { lladdr, .. } => target_len(lladdr),
            Repr::Redirect {
                lladdr,
                redirected_hdr,
                ..
            } => redirect_options_len(lladdr, redirected_hdr),
        }
    }

    /// Writes the message over the front of the octets, with the checksum zero; the other octets are unchanged. Times
    /// are rounded down to their whole units. Requires the bytes that the message takes; a lifetime of at most 65,535
    /// seconds, and times of at most 4,294,967,295 milliseconds; of a prefix lifetimes of at most 4,294,967,295
    /// seconds; and of a redirected packet that it counts its data as its payload, at most 1,992 bytes.
    pub fn emit<T: OctetsMut>(&self, packet: &mut Packet<T>)
        requires sound { CanEmit (value_of self.now) }
        requires room { text_len (value_of self.now) ≤ length (T.bytes (inner packet.old)) }
        ensures place { inner packet.new ≡ T.put (inner packet.old) (T.bytes (inner packet.new)) }
        ensures emits { Emits (value_of self.now) (T.bytes (inner packet.old))
            (T.bytes (inner packet.new)) }
    {
        self.emit_into(packet.buffer.octets_mut());
    }

    /// Like `emit`, but writes into a slice.
    #[tactic(auto, using(wirebase::proofs::Chains::chain))]
    pub fn emit_into(&self, octets: &mut [u8])
        requires sound { CanEmit (value_of self.now) }
        requires room { text_len (value_of self.now) ≤ length octets.old }
        ensures { Emits (value_of self.now) octets.old octets.new }
    {
        let mut w = ByteWriter::new(octets);
        self.put(&mut w);
    }

    /// Does nothing; its contract states, of two messages that a packet can hold, that equal texts mean equal normal
    /// forms, and conversely.
    #[tactic(auto, using(crate::proofs::NdiscFormat::ndisc_same_text))]
    pub fn same_text(a: &Self, b: &Self)
        ensures { SameText format (value_of a.now) (value_of b.now) }
    {}

    // Writes the message.
    #[tactic(auto, using(crate::proofs::NdiscTexts::behind_header))]
    fn put(&self, w: &mut ByteWriter<'_>)
        requires sound { CanEmit (value_of self.now) }
        requires room { text_len (value_of self.now) ≤ length (free w.old) }
        ensures { Puts w.old w.new (message_fields (value_of self.now)) }
    {
        self.put_header(w);
        self.put_options(w);
    }

    // Writes the header.
    fn put_header(&self, w: &mut ByteWriter<'_>)
        requires times { HaveTimes (value_of self.now) }
        requires room { header_len (value_of self.now) ≤ length (free w.old) }
        ensures puts { Puts w.old w.new (header_fields (value_of self.now) []) }
        ensures room { length (free w.old)
            ≡ header_len (value_of self.now) + length (free w.new) }
    {
        match self {
            Repr::RouterSolicit { .. } => put_reserved(w, Message::RouterSolicit),
            Repr::RouterAdvert {
                hop_limit,
                flags,
                router_lifetime,
                reachable_time,
                retrans_time,
                ..
            } => {
                put_router(w, *hop_limit, *flags, router_lifetime);
                put_times(w, reachable_time, retrans_time);
            }
            Repr::NeighborSolicit { target_addr, .. } => {
                put_reserved(w, Message::NeighborSolicit);
                put_address(w, target_addr);
            }
            Repr::NeighborAdvert {
                flags,
                target_addr,
                ..
            } => {
                put_neighbor(w, *flags);
                put_address(w, target_addr);
            }
            Repr::Redirect {
                target_addr,
                dest_addr,
                ..
            } => {
                put_reserved(w, Message::Redirect);
                put_address(w, target_addr);
                put_address(w, dest_addr);
            }
        }
    }

    // Writes the options.
    fn put_options(&self, w: &mut ByteWriter<'_>)
        requires sound { Each CanEmitOption (options_of (value_of self.now)) }
        requires room { option_lens (options_of (value_of self.now)) ≤ length (free w.old) }
        ensures { Puts w.old w.new (option_texts (options_of (value_of self.now))) }
    {
        match self {
            Repr::RouterSolicit { lladdr } => put_source(w, lladdr),
            Repr::RouterAdvert {
                lladdr,
                mtu,
                prefix_info,
                ..
            } => put_router_options(w, lladdr, mtu, prefix_info),
            Repr::NeighborSolicit { lladdr, .. } => put_source(w, lladdr),
            Repr::NeighborAdvert { lladdr, .. } => put_target(w, lladdr),
            Repr::Redirect {
                lladdr,
                redirected_hdr,
                ..
            } => put_redirect_options(w, lladdr, redirected_hdr),
        }
    }
}

// The bytes of the options of a router advertisement.
fn router_options_len(
    lladdr: &Option<RawHardwareAddress>,
    mtu: &Option<u32>,
    prefix_info: &Option<PrefixInformation>,
) -> usize
    requires { option_lens (sources (link_of lladdr.now) ∷ mtus mtu.now ∷ prefixes prefix_info.now ∷ [])
        < 2 ^ 64 }
    ensures { result
        ≡ option_lens (sources (link_of lladdr.now) ∷ mtus mtu.now ∷ prefixes prefix_info.now ∷ []) }
{
    source_len(lladdr) + mtu_len(mtu) + prefix_len(prefix_info)
}

// The bytes of the options of a redirect.
fn redirect_options_len(
    lladdr: &Option<RawHardwareAddress>,
    header: &Option<RedirectedHeader<'_>>,
) -> usize
    requires { option_lens (targets (link_of lladdr.now) ∷ packets (option_map packet_of header.now) ∷ [])
        < 2 ^ 64 }
    ensures { result
        ≡ option_lens (targets (link_of lladdr.now) ∷ packets (option_map packet_of header.now) ∷ []) }
{
    target_len(lladdr) + redirected_len(header)
}

// Writes a router advertisement up to its times in milliseconds.
fn put_router(w: &mut ByteWriter<'_>, hop_limit: u8, flags: RouterFlags, lifetime: &Duration)
    requires room { 8 ≤ length (free w.old) }
    requires lifetime { seconds_of lifetime.now ≤ 65535 }
    ensures puts { Puts w.old w.new (be8 0x86 ∷ be8 0 ∷ be16 0
        ∷ be8 hop_limit ∷ be8 (router_bits flags) ∷ be16 (seconds_of lifetime.now) ∷ []) }
    ensures room { length (free w.old) ≡ 8 + length (free w.new) }
{
    let [a, b] = (lifetime.secs() as u16).to_be_bytes();
    let rest = [hop_limit, flags.bits(), a, b];
    icmp::put_header(w, Message::RouterAdvert.into(), 0, rest);
}

// Writes the options of a router advertisement.
fn put_router_options(
    w: &mut ByteWriter<'_>,
    lladdr: &Option<RawHardwareAddress>,
    mtu: &Option<u32>,
    prefix_info: &Option<PrefixInformation>,
)
    requires sound { Each CanEmitOption
        (sources (link_of lladdr.now) ∷ mtus mtu.now ∷ prefixes prefix_info.now ∷ []) }
    requires room { option_lens (sources (link_of lladdr.now) ∷ mtus mtu.now ∷ prefixes prefix_info.now ∷ [])
        ≤ length (free w.old) }
    ensures { Puts w.old w.new
        (option_texts (sources (link_of lladdr.now) ∷ mtus mtu.now ∷ prefixes prefix_info.now ∷ [])) }
{
    put_source(w, lladdr);
    put_mtu(w, mtu);
    put_prefix(w, prefix_info);
}

// Writes the options of a redirect.
fn put_redirect_options(
    w: &mut ByteWriter<'_>,
    lladdr: &Option<RawHardwareAddress>,
    header: &Option<RedirectedHeader<'_>>,
)
    requires sound { Each CanEmitOption
        (targets (link_of lladdr.now) ∷ packets (option_map packet_of header.now) ∷ []) }
    requires room { option_lens
        (targets (link_of lladdr.now) ∷ packets (option_map packet_of header.now) ∷ [])
        ≤ length (free w.old) }
    ensures { Puts w.old w.new
        (option_texts (targets (link_of lladdr.now) ∷ packets (option_map packet_of header.now) ∷ [])) }
{
    put_target(w, lladdr);
    put_redirected(w, header);
}

// Writes a neighbor advertisement up to its address.
fn put_neighbor(w: &mut ByteWriter<'_>, flags: NeighborFlags)
    requires room { 8 ≤ length (free w.old) }
    ensures puts { Puts w.old w.new
        (be8 0x88 ∷ be8 0 ∷ be16 0 ∷ be8 (neighbor_bits flags) ∷ be8 0 ∷ be16 0 ∷ []) }
    ensures room { length (free w.old) ≡ 8 + length (free w.new) }
{
    icmp::put_header(
        w,
        Message::NeighborAdvert.into(),
        0,
        [flags.bits(), 0, 0, 0],
    );
}

// Writes the type, the code 0, no checksum and a word that is reserved.
#[tactic(auto, unfolding(wirebase::specs::ByteWriter::be32))]
fn put_reserved(w: &mut ByteWriter<'_>, kind: Message)
    requires room { 8 ≤ length (free w.old) }
    ensures puts { Puts w.old w.new (be8 (message_number kind) ∷ be8 0 ∷ be16 0 ∷ be32 0 ∷ []) }
    ensures room { length (free w.old) ≡ 8 + length (free w.new) }
{
    icmp::put_header(w, kind.into(), 0, [0; 4]);
}

// Writes the times of a router advertisement that are in whole milliseconds.
fn put_times(w: &mut ByteWriter<'_>, reachable: &Duration, retrans: &Duration)
    requires room { 8 ≤ length (free w.old) }
    requires reachable { millis_of reachable.now ≤ 4294967295 }
    requires retrans { millis_of retrans.now ≤ 4294967295 }
    ensures puts { Puts w.old w.new
        (be32 (millis_of reachable.now) ∷ be32 (millis_of retrans.now) ∷ []) }
    ensures room { length (free w.old) ≡ 8 + length (free w.new) }
{
    w.put_u32(reachable.total_millis() as u32);
    w.put_u32(retrans.total_millis() as u32);
}
