//! What datagrams, their parts and their refusals print.

ghost use Rattle.std.specs.Prelude.{Some};
ghost use Rattle.frame_wire.specs.Captured.{captured_of};
ghost use Rattle.frame_wire.specs.Datagram.{value_of};
ghost use Rattle.frame_wire.specs.DatagramDisplay.{addresses_display, head_display, refusal_display, datagram_display};
ghost use Rattle.frame_wire.specs.DatagramDisplay.{extent_display, captured_display};

use super::{Addresses, Captured, Datagram, Extent, Head, Refusal};
use std::fmt;

/// The source and the destination, as `192.0.2.1 > 192.0.2.2`.
impl fmt::Display for Addresses {
    ghost output = { λ addresses. Some (addresses_display addresses) };

    fn fmt<W: fmt::Write>(&self, f: &mut fmt::Formatter<W>) -> fmt::Result {
        match self {
            Addresses::V4(src_addr, dst_addr) => write!(f, "{src_addr} > {dst_addr}"),
            Addresses::V6(src_addr, dst_addr) => write!(f, "{src_addr} > {dst_addr}"),
        }
    }
}

/// The fields of a fragment are printed only where there is an identification.
impl fmt::Display for Head {
    ghost output = { λ head. Some (head_display head) };

    fn fmt<W: fmt::Write>(&self, f: &mut fmt::Formatter<W>) -> fmt::Result {
        let addresses = self.addresses;
        let protocol = self.protocol;
        let offset = self.frag_offset;
        let more = self.more_frags;
        match self.ident {
            Some(ident) => write!(
                f,
                "{addresses} protocol={protocol} ident={ident} frag_offset={offset} more_frags={more}"
            ),
            None => write!(f, "{addresses} protocol={protocol}"),
        }
    }
}

/// The reason, as a phrase.
impl fmt::Display for Refusal {
    ghost output = { λ refusal. Some (refusal_display refusal) };

    fn fmt<W: fmt::Write>(&self, f: &mut fmt::Formatter<W>) -> fmt::Result {
        match self {
            Refusal::Short => write!(f, "fewer bytes than the fixed header has"),
            Refusal::Version(version) => write!(f, "version {version} is not read"),
            Refusal::HeaderLen(len) => write!(f, "a header length of {len} is below 20"),
            Refusal::TotalLen(len) => {
                write!(f, "a total length of {len} is below that of the header")
            }
            Refusal::Cut(head) => write!(f, "cut short, {head}"),
            Refusal::Jumbogram => write!(f, "a malformed jumbogram"),
            Refusal::Extension(protocol) => {
                write!(f, "the extension header {protocol} is cut short")
            }
            Refusal::Fragment(head) => write!(f, "a fragment, {head}"),
        }
    }
}

/// The addresses, the protocol, the hop limit, and the number of bytes of the payload.
impl fmt::Display for Datagram<'_> {
    ghost output = { λ datagram. Some (datagram_display (value_of datagram)) };

    fn fmt<W: fmt::Write>(&self, f: &mut fmt::Formatter<W>) -> fmt::Result {
        let addresses = self.addresses;
        let protocol = self.protocol;
        let hop_limit = self.hop_limit;
        let len = self.payload.len();
        write!(
            f,
            "{addresses} protocol={protocol} hop_limit={hop_limit} len={len}"
        )
    }
}

/// How much was captured.
impl fmt::Display for Extent {
    ghost output = { λ extent. Some (extent_display extent) };

    fn fmt<W: fmt::Write>(&self, f: &mut fmt::Formatter<W>) -> fmt::Result {
        match self {
            Extent::Whole => write!(f, "whole"),
            Extent::Cut { missing } => write!(f, "cut missing={missing}"),
            Extent::Unstated => write!(f, "of no stated length"),
        }
    }
}

/// The datagram, and how much of it was captured.
impl fmt::Display for Captured<'_> {
    ghost output = { λ captured. Some (captured_display (captured_of captured)) };

    fn fmt<W: fmt::Write>(&self, f: &mut fmt::Formatter<W>) -> fmt::Result {
        let datagram = &self.datagram;
        let extent = self.extent;
        write!(f, "{datagram} {extent}")
    }
}
