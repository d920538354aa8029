ghost use Rattle.std.specs.Prelude.{◌≡◌, ◌≤◌, ℕ, List, length};
ghost use Rattle.icmp6_wire.specs.Icmpv6Packet.{CanClear};
ghost use Rattle.icmp6_wire.specs.Icmpv6Tables.{message_of};

use super::{ECHO, destination, source};
use crate::testing::{holds_of, same, same_of};
use icmp6_wire::icmpv6::{Message, Packet};
use std::process::Abort;

// Clears what is reserved in a message of which all but the type is 0xff, and checks that it is what is wanted.
fn check_cleared<const N: usize>(rt: &impl Abort, kind: u8, wanted: &[u8; N])
    requires some { 1 ≤ N }
    requires can { (bytes : List ℕ) → length bytes ≡ N → CanClear (message_of kind) bytes }
{
    let mut octets = [0xff; N];
    octets[0] = kind;
    Packet::new_unchecked(octets.as_mut_slice()).clear_reserved();
    same(rt, &octets, wanted);
}

#[test]
fn what_solicitations_have_reserved_is_cleared(rt: HostRuntime) {
    check_cleared(&rt, 0x85, &[0x85, 0xff, 0xff, 0xff, 0, 0, 0, 0]);
    check_cleared(&rt, 0x87, &[0x87, 0xff, 0xff, 0xff, 0, 0, 0, 0, 0xff]);
}

#[test]
fn what_neighbor_advertisements_and_redirects_have_reserved_is_cleared(rt: HostRuntime) {
    check_cleared(&rt, 0x88, &[0x88, 0xff, 0xff, 0xff, 0, 0, 0, 0, 0xff]);
    check_cleared(&rt, 0x89, &[0x89, 0xff, 0xff, 0xff, 0, 0, 0, 0, 0xff]);
}

#[test]
fn what_a_report_has_reserved_is_cleared(rt: HostRuntime) {
    check_cleared(&rt, 0x8f, &[0x8f, 0xff, 0xff, 0xff, 0, 0]);
}

#[test]
fn what_a_query_has_reserved_is_cleared(rt: HostRuntime) {
    for byte in 0..=255 {
        let mut octets = [0xff; 26];
        octets[0] = 0x82;
        octets[24] = byte;
        Packet::new_unchecked(octets.as_mut_slice()).clear_reserved();
        let mut wanted = [0xff; 26];
        wanted[0] = 0x82;
        wanted[6] = 0;
        wanted[7] = 0;
        wanted[24] = byte & 0x0f;
        same_of(&rt, byte, octets, wanted);
    }
}

// An echo reply with one octet behind its header.
const FIELDS: [u8; 9] = [0x81, 0x01, 0x12, 0x34, 0x56, 0x78, 0x9a, 0xbc, 0x2a];

#[test]
fn fields_are_set(rt: HostRuntime) {
    let mut octets = [0x2a; 9];
    let mut packet = Packet::new_unchecked(octets.as_mut_slice());
    packet.set_msg_type(Message::EchoReply);
    packet.set_msg_code(0x01);
    packet.set_checksum(0x1234);
    packet.set_echo_ident(0x5678);
    packet.set_echo_seq_no(0x9abc);
    same(&rt, packet.as_ref(), FIELDS.as_slice());
}

#[test]
fn fields_are_read(rt: HostRuntime) {
    let packet = Packet::new_unchecked(FIELDS.as_slice());
    same(&rt, packet.msg_type(), Message::EchoReply);
    same(&rt, packet.msg_code(), 0x01);
    same(
        &rt,
        [packet.checksum(), packet.echo_ident(), packet.echo_seq_no()],
        [0x1234, 0x5678, 0x9abc],
    );
}

#[test]
fn an_mtu_and_a_pointer_are_set_and_read(rt: HostRuntime) {
    let mut octets = FIELDS;
    let mut packet = Packet::new_unchecked(octets.as_mut_slice());
    packet.set_pkt_too_big_mtu(0x0102_0304);
    same(&rt, packet.pkt_too_big_mtu(), 0x0102_0304);
    packet.set_param_problem_ptr(0x0506_0708);
    same(&rt, packet.param_problem_ptr(), 0x0506_0708);
    same(
        &rt,
        octets,
        [0x81, 0x01, 0x12, 0x34, 0x05, 0x06, 0x07, 0x08, 0x2a],
    );
}

#[test]
fn checksums_and_what_stands_behind_the_header(rt: HostRuntime) {
    let mut octets = ECHO;
    let mut packet = Packet::new_unchecked(octets.as_mut_slice());
    packet.payload_mut().fill(0xff);
    let written = [
        0x80, 0x00, 0x19, 0xb3, 0x12, 0x34, 0xab, 0xcd, 0xff, 0xff, 0xff, 0xff,
    ];
    same(&rt, &*packet.into_inner(), written.as_slice());
}

#[test]
fn a_checksum_is_filled(rt: HostRuntime) {
    let mut octets = ECHO;
    octets[2] = 0;
    let mut packet = Packet::new_unchecked(octets.as_mut_slice());
    same(
        &rt,
        packet.verify_checksum(&source(), &destination()),
        false,
    );
    packet.fill_checksum(&source(), &destination());
    same(&rt, packet.verify_checksum(&source(), &destination()), true);
    same(&rt, &*packet.into_inner(), ECHO.as_slice());
}

#[test]
fn packets_are_compared_with_what_stands_behind_their_header(rt: HostRuntime) {
    let packet = Packet::new_unchecked(ECHO.as_slice());
    let checked = Packet::new_checked(ECHO.as_slice());
    holds_of(
        &rt,
        12,
        checked == Ok(Packet::new_unchecked(ECHO.as_slice())),
    );
    holds_of(&rt, 11, packet != Packet::new_unchecked(&ECHO[..11]));
}
