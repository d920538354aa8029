//! Writes the options of a message, each of which may be absent.
#![tactic(auto, using(crate::proofs::NdiscTexts::nothing))]

ghost use Rattle.std.specs.Prelude.{◌≡◌, ◌+◌, ◌*◌, ◌<◌, ◌≤◌, ◌^◌, [], ◌∷◌, length};
ghost use Rattle.std.specs.Option.{option_map};
ghost use Rattle.wirebase.specs.ByteWriter.{free, Puts};
ghost use Rattle.opt_wire.specs.NdiscOptionRepr.{CanEmit as CanEmitOption};
ghost use Rattle.icmp6_wire.specs.Ndisc.{sources, targets, mtus, prefixes, packets, option_text, option_len, IfThere};
ghost use Rattle.icmp6_wire.specs.NdiscOptionsSeen.{link_of, packet_of};

use opt_wire::ndiscoption::{PrefixInformation, RedirectedHeader, Type};
use opt_wire::writing;
use wirebase::{ByteWriter, RawHardwareAddress};

// The bytes of the option of a link-layer address of the sender.
pub(super) fn source_len(lladdr: &Option<RawHardwareAddress>) -> usize
    ensures { result ≡ option_len (sources (link_of lladdr.now)) }
{
    match lladdr {
        Some(addr) => writing::link_layer_addr_len(addr),
        None => 0,
    }
}

// The bytes of the option of a link-layer address of the target.
pub(super) fn target_len(lladdr: &Option<RawHardwareAddress>) -> usize
    ensures { result ≡ option_len (targets (link_of lladdr.now)) }
{
    match lladdr {
        Some(addr) => writing::link_layer_addr_len(addr),
        None => 0,
    }
}

// The bytes of the option of an MTU.
pub(super) fn mtu_len(mtu: &Option<u32>) -> usize
    ensures { result ≡ option_len (mtus mtu.now) }
{
    match mtu {
        Some(_) => writing::MTU_LEN,
        None => 0,
    }
}

// The bytes of the option of a prefix.
pub(super) fn prefix_len(prefix_info: &Option<PrefixInformation>) -> usize
    ensures { result ≡ option_len (prefixes prefix_info.now) }
{
    match prefix_info {
        Some(_) => writing::PREFIX_OPTION_LEN,
        None => 0,
    }
}

// The bytes of the option of a redirected packet.
pub(super) fn redirected_len(header: &Option<RedirectedHeader<'_>>) -> usize
    requires { option_len (packets (option_map packet_of header.now)) < 2 ^ 64 }
    ensures { result ≡ option_len (packets (option_map packet_of header.now)) }
{
    match header {
        Some(header) => writing::redirected_len(header),
        None => 0,
    }
}

// Writes the option of a link-layer address of the sender.
pub(super) fn put_source(w: &mut ByteWriter<'_>, lladdr: &Option<RawHardwareAddress>)
    requires room { option_len (sources (link_of lladdr.now)) ≤ length (free w.old) }
    ensures puts { Puts w.old w.new (option_text (sources (link_of lladdr.now)) ∷ []) }
    ensures room { length (free w.old) ≡ option_len (sources (link_of lladdr.now)) + length (free w.new) }
{
    match lladdr {
        Some(addr) => writing::put_link_layer_addr(w, Type::SourceLinkLayerAddr, addr),
        None => {}
    }
}

// Writes the option of a link-layer address of the target.
pub(super) fn put_target(w: &mut ByteWriter<'_>, lladdr: &Option<RawHardwareAddress>)
    requires room { option_len (targets (link_of lladdr.now)) ≤ length (free w.old) }
    ensures puts { Puts w.old w.new (option_text (targets (link_of lladdr.now)) ∷ []) }
    ensures room { length (free w.old) ≡ option_len (targets (link_of lladdr.now)) + length (free w.new) }
{
    match lladdr {
        Some(addr) => writing::put_link_layer_addr(w, Type::TargetLinkLayerAddr, addr),
        None => {}
    }
}

// Writes the option of an MTU.
pub(super) fn put_mtu(w: &mut ByteWriter<'_>, mtu: &Option<u32>)
    requires room { option_len (mtus mtu.now) ≤ length (free w.old) }
    ensures puts { Puts w.old w.new (option_text (mtus mtu.now) ∷ []) }
    ensures room { length (free w.old) ≡ option_len (mtus mtu.now) + length (free w.new) }
{
    match mtu {
        Some(mtu) => writing::put_mtu(w, *mtu),
        None => {}
    }
}

// Writes the option of a prefix.
pub(super) fn put_prefix(w: &mut ByteWriter<'_>, prefix_info: &Option<PrefixInformation>)
    requires sound { IfThere CanEmitOption (prefixes prefix_info.now) }
    requires room { option_len (prefixes prefix_info.now) ≤ length (free w.old) }
    ensures puts { Puts w.old w.new (option_text (prefixes prefix_info.now) ∷ []) }
    ensures room { length (free w.old) ≡ option_len (prefixes prefix_info.now) + length (free w.new) }
{
    match prefix_info {
        Some(info) => writing::put_prefix(w, info),
        None => {}
    }
}

// Writes the option of a redirected packet.
pub(super) fn put_redirected(w: &mut ByteWriter<'_>, header: &Option<RedirectedHeader<'_>>)
    requires sound { IfThere CanEmitOption (packets (option_map packet_of header.now)) }
    requires small { option_len (packets (option_map packet_of header.now)) < 2 ^ 64 }
    requires room { option_len (packets (option_map packet_of header.now)) ≤ length (free w.old) }
    ensures puts { Puts w.old w.new (option_text (packets (option_map packet_of header.now)) ∷ []) }
    ensures room { length (free w.old)
        ≡ option_len (packets (option_map packet_of header.now)) + length (free w.new) }
{
    match header {
        Some(header) => writing::put_redirected(w, header),
        None => {}
    }
}
