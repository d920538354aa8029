//! Messages of ICMPv4, of ICMPv6 and of IGMP.

#![tactic(auto, using(packet_fields::proofs::Fields::prints_both, packet_fields::proofs::Fields::prints_none))]

ghost use Rattle.std.specs.Prelude.{◌≡◌, IfOk, OnOk};
ghost use Rattle.packet_fields.specs.Prints.{Prints, PrintsSome};
ghost use Rattle.message_fields.specs.Icmp.{Icmp4Is, Icmp6Is, IgmpIs, IgmpTold, NdiscTold, NeighborIs, OthersAre};
ghost use Rattle.message_fields.specs.Icmp.{unless_short, group_items, if_group_items, mistake_items, unless_version_3};
ghost use Rattle.message_fields.specs.Icmp.{has_mld_type, has_ndisc_type, refusal_of, unless_told};

use crate::refusal::Refusal;
use crate::show::{show_phrase, show_refused};
use icmp_fields::refusal::Told;
use icmp_fields::{icmp4, icmp6};
use icmp4_wire::igmp;
use icmp6_wire::icmpv6;
use neighbor_fields::Lack;
use neighbor_fields::igmp::show_igmp as show_igmp_fields;
use neighbor_fields::mld::show_mld;
use neighbor_fields::ndisc::show_ndisc;
use packet_fields::Form;
use quote_wire::message::{Icmpv4Message, Icmpv6Message, Icmpv6Refusal};
use std::alloc::Global;
use std::io;
use std::io::Write;
use wirebase::{ChecksumCapabilities, Ipv6Address};

// The type of a membership report of version 3 (RFC 3376 section 4.2).
const MEMBERSHIP_REPORT_V3: u8 = 0x22;

/// Prints an ICMPv4 message, whole or cut, and returns why it is refused. Of a message whose reader refuses it the
/// type, the code and the octets are printed.
pub(crate) fn show_icmp4<W: Write>(
    output: &mut W,
    form: Form,
    alloc: Global,
    octets: &[u8],
    is_whole: bool,
) -> io::Result<Option<Refusal>>
    ensures { IfOk result (λ told. PrintsSome form (W.contents output.old) (W.contents output.new)
        (λ items. Icmp4Is is_whole octets.now items told)) }
{
    match Icmpv4Message::parse_or_refusal(octets, &ChecksumCapabilities::ignored()) {
        Ok(Icmpv4Message::Error(error)) => {
            icmp4::show_error(output, form, &error, is_whole)?;
            Ok(None)
        }
        Ok(Icmpv4Message::Message(message)) => {
            icmp4::show_message(output, form, &message, octets)?;
            Ok(None)
        }
        Err(refusal) => {
            let refusal = Refusal::Icmp4(refusal);
            icmp4::show_unread(output, form, octets, is_whole)?;
            show_mistake(output, form, alloc, &refusal)?;
            Ok(unless_told(refusal, icmp4::told(octets)))
        }
    }
}

// Prints why a message is refused; a type that is not known is no mistake of the message.
fn show_mistake<W: Write>(
    output: &mut W,
    form: Form,
    alloc: Global,
    refusal: &Refusal,
) -> io::Result<()>
    ensures { OnOk result (Prints form (W.contents output.old) (W.contents output.new)
        (mistake_items refusal.now)) }
{
    if refusal.is_unknown() {
        return Ok(());
    }
    show_refused(output, form, alloc, refusal)
}

// Why a message is refused whose reader refuses it: one of a type that the reader does not know may be told otherwise.
fn unless_told(refusal: Refusal, told: Told) -> Option<Refusal>
    ensures { result ≡ unless_told refusal told }
{
    if !refusal.is_unknown() {
        return Some(refusal);
    }
    match told {
        Told::Fields => None,
        Told::Refused(why) => Some(Refusal::Query(why)),
        Told::Octets => Some(refusal),
    }
}

/// Prints an IGMP message, and returns why it is refused or read in part.
pub(crate) fn show_igmp<W: Write>(
    output: &mut W,
    form: Form,
    alloc: Global,
    octets: &[u8],
) -> io::Result<Option<Refusal>>
    ensures { IfOk result (λ told. PrintsSome form (W.contents output.old) (W.contents output.new)
        (λ items. IgmpIs octets.now items told)) }
{
    let why = why_igmp(octets);
    let lack = show_igmp_fields(output, form, octets)?;
    show_group(output, form, alloc, why)?;
    Ok(why.or(refusal_of(lack)))
}

// Why a message that has less than it takes or counts is refused.
fn refusal_of(lack: Option<Lack>) -> Option<Refusal>
    ensures { result ≡ refusal_of lack }
{
    match lack {
        Some(lack) => Some(Refusal::Lack(lack)),
        None => None,
    }
}

// Why its reader refuses an IGMP message. Of version 3 each is read.
fn why_igmp(octets: &[u8]) -> Option<Refusal>
    ensures { IgmpTold octets.now result }
{
    match igmp::Repr::refusal(&igmp::Packet::new_unchecked(octets)) {
        Some(refusal) => unless_version_3(refusal),
        None => None,
    }
}

fn unless_version_3(refusal: igmp::Refusal) -> Option<Refusal>
    ensures { result ≡ unless_version_3 refusal }
{
    if refusal == igmp::Refusal::UnknownType(MEMBERSHIP_REPORT_V3) {
        return None;
    }
    Some(Refusal::Igmp(refusal))
}

// Prints why a group is none, where it is; the fields tell every other reason.
fn show_group<W: Write>(
    output: &mut W,
    form: Form,
    alloc: Global,
    told: Option<Refusal>,
) -> io::Result<()>
    ensures { OnOk result (Prints form (W.contents output.old) (W.contents output.new) (group_items told)) }
{
    match told {
        Some(refusal) => show_if_group(output, form, alloc, &refusal),
        None => Ok(()),
    }
}

fn show_if_group<W: Write>(
    output: &mut W,
    form: Form,
    alloc: Global,
    refusal: &Refusal,
) -> io::Result<()>
    ensures { OnOk result (Prints form (W.contents output.old) (W.contents output.new)
        (if_group_items refusal.now)) }
{
    if !refusal.is_group() {
        return Ok(());
    }
    show_phrase(output, form, alloc, "group_refused", refusal)
}

/// Prints an ICMPv6 message from one address to another, whole or cut, and returns why it is refused or read in part.
pub(crate) fn show_icmp6<W: Write>(
    output: &mut W,
    form: Form,
    alloc: Global,
    src_addr: &Ipv6Address,
    dst_addr: &Ipv6Address,
    octets: &[u8],
    is_whole: bool,
) -> io::Result<Option<Refusal>>
    ensures { IfOk result (λ told. PrintsSome form (W.contents output.old) (W.contents output.new)
        (λ items. Icmp6Is is_whole src_addr.now dst_addr.now octets.now items told)) }
{
    if has_mld_type(octets) {
        let lack = show_mld(output, form, octets)?;
        return Ok(refusal_of(lack));
    }
    if has_ndisc_type(octets) {
        return show_neighbor(output, form, alloc, src_addr, dst_addr, octets);
    }
    show_others(output, form, alloc, src_addr, dst_addr, octets, is_whole)
}

// Whether the type is that of multicast listeners, of version 1 or 2 (RFC 2710 section 3, RFC 3810 section 5).
fn has_mld_type(octets: &[u8]) -> bool
    ensures { result ≡ has_mld_type octets.now }
{
    matches!(octets, [130..=132 | 143, ..])
}

// Whether the type is that of neighbor discovery (RFC 4861 section 4).
fn has_ndisc_type(octets: &[u8]) -> bool
    ensures { result ≡ has_ndisc_type octets.now }
{
    matches!(octets, [133..=137, ..])
}

// Prints a message of neighbor discovery, and returns why it is refused. The fields tell where it is too short.
fn show_neighbor<W: Write>(
    output: &mut W,
    form: Form,
    alloc: Global,
    src_addr: &Ipv6Address,
    dst_addr: &Ipv6Address,
    octets: &[u8],
) -> io::Result<Option<Refusal>>
    ensures { IfOk result (λ told. PrintsSome form (W.contents output.old) (W.contents output.new)
        (λ items. NeighborIs src_addr.now dst_addr.now octets.now items told)) }
{
    let told = why_ndisc(src_addr, dst_addr, octets);
    show_ndisc(output, form, octets)?;
    show_unless_short(output, form, alloc, told)?;
    Ok(told)
}

// Prints why a message of neighbor discovery is refused, but for one that is too short.
fn show_unless_short<W: Write>(
    output: &mut W,
    form: Form,
    alloc: Global,
    told: Option<Refusal>,
) -> io::Result<()>
    ensures { OnOk result (Prints form (W.contents output.old) (W.contents output.new) (unless_short told)) }
{
    match told {
        Some(Refusal::Icmp6(Icmpv6Refusal::Message(icmpv6::Refusal::Ndisc(why)))) => {
            let refusal = Refusal::Icmp6(Icmpv6Refusal::Message(icmpv6::Refusal::Ndisc(why)));
            show_refused(output, form, alloc, &refusal)
        }
        Some(Refusal::Icmp6(Icmpv6Refusal::Message(icmpv6::Refusal::Code(code)))) => {
            let refusal = Refusal::Icmp6(Icmpv6Refusal::Message(icmpv6::Refusal::Code(code)));
            show_refused(output, form, alloc, &refusal)
        }
        _ => Ok(()),
    }
}

// Why a message of neighbor discovery is refused.
fn why_ndisc(src_addr: &Ipv6Address, dst_addr: &Ipv6Address, octets: &[u8]) -> Option<Refusal>
    ensures { NdiscTold src_addr.now dst_addr.now octets.now result }
{
    let checksums = ChecksumCapabilities::ignored();
    match Icmpv6Message::refusal(src_addr, dst_addr, octets, &checksums) {
        Some(refusal) => Some(Refusal::Icmp6(refusal)),
        None => None,
    }
}

// Prints a message of another type, and returns why it is refused.
fn show_others<W: Write>(
    output: &mut W,
    form: Form,
    alloc: Global,
    src_addr: &Ipv6Address,
    dst_addr: &Ipv6Address,
    octets: &[u8],
    is_whole: bool,
) -> io::Result<Option<Refusal>>
    ensures { IfOk result (λ told. PrintsSome form (W.contents output.old) (W.contents output.new)
        (λ items. OthersAre is_whole src_addr.now dst_addr.now octets.now items told)) }
{
    let checksums = ChecksumCapabilities::ignored();
    match Icmpv6Message::parse_or_refusal(src_addr, dst_addr, octets, &checksums) {
        Ok(Icmpv6Message::Error(error)) => {
            icmp6::show_error(output, form, &error, is_whole)?;
            Ok(None)
        }
        Ok(Icmpv6Message::Message(message)) => {
            icmp6::show_message(output, form, &message, octets)?;
            Ok(None)
        }
        Err(refusal) => {
            let refusal = Refusal::Icmp6(refusal);
            icmp6::show_unread(output, form, octets, is_whole)?;
            show_mistake(output, form, alloc, &refusal)?;
            Ok(unless_told(refusal, icmp6::told(octets)))
        }
    }
}
