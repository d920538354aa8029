//! Damaged and cut messages: their fields, and where reasons are told. What is read in them `wiredump` prints, which
//! `rust/compare` compares with a plain printer on these octets.

use crate::testing::{holds_of, same_of};
use icmp4_wire::igmp::{Packet, Repr};
use std::process::Abort;

// Compares the fields of the view with the octets at their places.
fn compare_fields(rt: &impl Abort, octets: &[u8]) {
    let [kind, code, s0, s1, a, b, c, d, ..] = octets else {
        return;
    };
    let packet = Packet::new_unchecked(octets);
    same_of(rt, octets, u8::from(packet.msg_type()), *kind);
    same_of(rt, octets, packet.max_resp_code(), *code);
    same_of(rt, octets, packet.checksum().to_be_bytes(), [*s0, *s1]);
    same_of(rt, octets, packet.group_addr().octets(), [*a, *b, *c, *d]);
}

// Compares lengths, reasons and fields over these octets.
fn compare(rt: &impl Abort, octets: &[u8]) {
    let packet = Packet::new_unchecked(octets);
    let is_long = octets.len() >= 8;
    same_of(rt, octets, packet.check_len().is_ok(), is_long);
    same_of(rt, octets, Packet::new_checked(octets).is_ok(), is_long);
    let refusal = Repr::refusal(&packet);
    same_of(rt, octets, refusal.is_none(), Repr::parse(&packet).is_ok());
    compare_fields(rt, octets);
}

// Compares them over each shorter part of the packet, and over each copy of it in which one byte is another.
fn compare_damaged<const N: usize>(rt: &impl Abort, packet: &[u8; N]) {
    for len in 0..=N {
        compare(rt, &packet[..len]);
    }
    for at in 0..N {
        for value in 0..=255u8 {
            let mut octets = *packet;
            octets[at] = value;
            compare(rt, octets.as_slice());
        }
    }
}

// Compares them over a packet that is read, and over what is damaged of it.
fn check_damaged<const N: usize>(rt: &impl Abort, packet: &[u8; N]) {
    let view = Packet::new_unchecked(packet.as_slice());
    holds_of(rt, packet, view.verify_checksum());
    holds_of(rt, packet, Repr::parse(&view).is_ok());
    compare_damaged(rt, packet);
}

#[test]
fn damaged_messages_have_their_fields_and_reasons(rt: HostRuntime) {
    const ROWS: &[[u8; 8]] = &[
        [0x11, 0x80, 0xee, 0x7f, 0, 0, 0, 0],
        [0x11, 0x00, 0xee, 0xff, 0, 0, 0, 0],
        [0x11, 0x64, 0x08, 0x05, 0xe0, 0x00, 0x06, 0x96],
        [0x17, 0x00, 0x02, 0x69, 0xe0, 0x00, 0x06, 0x96],
        [0x16, 0x00, 0x08, 0xda, 0xe1, 0x00, 0x00, 0x25],
        [0x12, 0x00, 0x0c, 0xda, 0xe1, 0x00, 0x00, 0x25],
    ];
    for packet in ROWS {
        check_damaged(&rt, packet);
    }
    check_damaged(&rt, &[0x17, 0x00, 0x5d, 0x68, 0xe0, 0x00, 0x06, 0x96, 0xa5]);
}
