use super::{ECHO, TOO_BIG, all, behind, destination, source};
use crate::testing::{prints, same, same_of};
use icmp6_wire::icmpv6::{Packet, Refusal, Repr};
use icmp6_wire::ndisc;
use std::process::Abort;
use wirebase::Checksum;

// Checks why these octets are refused, where their checksum is verified or not.
fn check_refusal(rt: &impl Abort, octets: &[u8], checksum: Checksum, wanted: Option<Refusal>) {
    let packet = Packet::new_unchecked(octets);
    let refusal = Repr::refusal(&source(), &destination(), &packet, &all(checksum));
    same_of(rt, octets, refusal, wanted);
}

// Checks what is read in a packet whose checksum is verified, or why it is refused.
fn check_read(rt: &impl Abort, packet: &Packet<&[u8]>, wanted: &Result<Repr<'_>, Refusal>) {
    let read = Repr::parse_or_refusal(&source(), &destination(), packet, &all(Checksum::Both));
    same(rt, &read, wanted);
}

#[test]
fn the_first_check_that_fails_is_told(rt: HostRuntime) {
    check_refusal(&rt, &ECHO, Checksum::Both, None);
    check_refusal(&rt, &ECHO[..7], Checksum::Both, Some(Refusal::Short));
    check_refusal(&rt, &ECHO[..11], Checksum::Both, Some(Refusal::Checksum));
    check_refusal(&rt, &ECHO[..11], Checksum::None, None);
    let rpl = [0x9b, 1, 0, 0, 0, 0, 0, 0];
    check_refusal(&rt, &rpl, Checksum::Both, Some(Refusal::UnknownType(0x9b)));
    let query = [0x82, 0, 0, 0, 0, 0, 0, 0];
    check_refusal(&rt, &query, Checksum::Both, Some(Refusal::Length));
    let report = [0x8f, 1, 0, 0, 0, 0, 0, 0];
    check_refusal(&rt, &report, Checksum::None, Some(Refusal::Code(1)));
    check_refusal(&rt, &report, Checksum::Both, Some(Refusal::Checksum));
}

#[test]
fn messages_are_read_or_told_why_they_are_refused(rt: HostRuntime) {
    let whole = Packet::new_unchecked(&ECHO[..]);
    let message = Repr::EchoRequest {
        ident: 0x1234,
        seq_no: 0xabcd,
        data: &[0xaa, 0x00, 0x00, 0xff],
    };
    check_read(&rt, &whole, &Ok(message));
    check_read(
        &rt,
        &Packet::new_unchecked(&ECHO[..11]),
        &Err(Refusal::Checksum),
    );
    // The messages of version 1 of multicast listener discovery but for its queries (RFC 2710 section 3.1).
    for number in [131, 132] {
        let octets = [number, 0, 0, 0, 0, 0, 0, 0];
        let packet = Packet::new_unchecked(&octets[..]);
        check_read(&rt, &packet, &Err(Refusal::UnknownType(number)));
    }
}

#[test]
fn refused_errors_are_told(rt: HostRuntime) {
    check_refusal(&rt, &TOO_BIG, Checksum::Both, None);
    check_refusal(&rt, &TOO_BIG[..47], Checksum::None, Some(Refusal::Quote));
    let other = behind(&[0x02, 0x05, 0, 0, 0, 0, 0x05, 0xdc]);
    check_refusal(&rt, &other, Checksum::None, Some(Refusal::Code(5)));
    let cut = other.get(..47).unwrap_or(&[]);
    check_refusal(&rt, cut, Checksum::None, Some(Refusal::Quote));
    check_refusal(&rt, cut, Checksum::Both, Some(Refusal::Checksum));
}

#[test]
fn refused_options_of_neighbor_discovery_are_told(rt: HostRuntime) {
    let solicit = [0x85, 0, 0, 0, 0, 0, 0, 0, 0x01];
    let cut = ndisc::Refusal::OptionCut { kind: 1, place: 8 };
    check_refusal(&rt, &solicit, Checksum::None, Some(Refusal::Ndisc(cut)));
    check_refusal(&rt, &solicit[..8], Checksum::None, None);
}

#[test]
fn texts_of_refusals(rt: HostRuntime) {
    let alloc = rt.alloc();
    prints(&rt, alloc, &Refusal::Short, "fewer than 8 bytes");
    prints(
        &rt,
        alloc,
        &Refusal::UnknownType(155),
        "type 155 is not read",
    );
    prints(
        &rt,
        alloc,
        &Refusal::Length,
        "fewer bytes than the header of its type",
    );
    prints(&rt, alloc, &Refusal::Checksum, "the checksum does not hold");
}

#[test]
fn texts_of_refused_contents(rt: HostRuntime) {
    let alloc = rt.alloc();
    prints(
        &rt,
        alloc,
        &Refusal::Quote,
        "an error that quotes fewer than 40 bytes",
    );
    prints(&rt, alloc, &Refusal::Code(1), "code 1 is not read");
    let cut = ndisc::Refusal::OptionCut { kind: 1, place: 8 };
    prints(
        &rt,
        alloc,
        &Refusal::Ndisc(cut),
        "the option of type 1 at byte 8 is cut",
    );
}
