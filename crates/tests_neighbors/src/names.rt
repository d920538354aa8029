//! The domain names of search lists in turn (RFC 8106 section 5.2), and the addresses of DNS servers (section 5.1).

use crate::testing::{prints, same, same_of, takes_writes};
use neighbor_wire::{NameRefusal, Names, Servers};
use std::process::Abort;
use wirebase::Ipv6Address;

// Checks that the octets give these answers in turn, and no more.
fn check_names(rt: &impl Abort, octets: &[u8], answers: &[Result<&[u8], NameRefusal>]) {
    let names = Names::new(octets);
    same(rt, names.octets(), octets);
    let mut turns = names.iter();
    for answer in answers {
        same_of(rt, octets, turns.next(), Some(*answer));
    }
    same_of(rt, octets, turns.next(), None);
}

#[test]
fn names_in_turn(rt: HostRuntime) {
    let rows: &[(&[u8], &[Result<&[u8], NameRefusal>])] = &[
        (
            b"\x07example\x03com\0\x03lab\0\0\0\0\0\0\0",
            &[Ok(b"\x07example\x03com\0"), Ok(b"\x03lab\0")],
        ),
        (
            b"\x03lab\0\xc0\x0c",
            &[Ok(b"\x03lab\0"), Err(NameRefusal::Label(192))],
        ),
        (b"\x03lab", &[Err(NameRefusal::Cut)]),
        (b"\x04lab", &[Err(NameRefusal::Cut)]),
        (b"\0\x03lab\0", &[]),
        (&[], &[]),
    ];
    for (octets, answers) in rows {
        check_names(&rt, octets, answers);
    }
}

#[test]
fn a_copy_of_names_goes_on_from_the_same_place(rt: HostRuntime) {
    let mut names = Names::new(b"\x03lab\0\x03com\0").iter();
    same(&rt, names.next(), Some(Ok(&b"\x03lab\0"[..])));
    let Ok(mut copy) = names.clone() else {
        return same(&rt, "no copy", "a copy");
    };
    same(&rt, copy.next(), Some(Ok(&b"\x03com\0"[..])));
    same(&rt, copy.next(), None);
    same(&rt, names.next(), Some(Ok(&b"\x03com\0"[..])));
}

// A label has 63 octets at most (RFC 1035 section 3.1).
#[test]
fn labels_of_63_and_64_octets(rt: HostRuntime) {
    let mut octets = [b'a'; 65];
    octets[0] = 64;
    check_names(&rt, &octets, &[Err(NameRefusal::Label(64))]);
    octets[0] = 63;
    octets[64] = 0;
    check_names(&rt, &octets, &[Ok(&octets)]);
}

#[test]
fn texts_of_what_is_refused_as_a_name(rt: HostRuntime) {
    let label = NameRefusal::Label(192);
    prints(&rt, rt.alloc(), &label, "a label of length 192");
    takes_writes(&rt, &label, 2);
    let cut = NameRefusal::Cut;
    prints(&rt, rt.alloc(), &cut, "the octets end before the name does");
    takes_writes(&rt, &cut, 1);
}

// Fewer octets than an address has are ignored at the end.
#[test]
fn servers_in_turn(rt: HostRuntime) {
    let octets = [
        0x20, 0x01, 0x0d, 0xb8, 0x00, 0x00, 0x00, 0x00, 0x00, 0x00, 0x00, 0x00, 0x00, 0x00, 0x00,
        0x53, 0x20, 0x01, 0x0d, 0xb8, 0x00, 0x00, 0x00, 0x00, 0x00, 0x00, 0x00, 0x00, 0x00, 0x00,
        0x00, 0x54, 0x20, 0x01, 0x0d, 0xb8,
    ];
    let first = Ipv6Address::new(0x2001, 0xdb8, 0, 0, 0, 0, 0, 0x53);
    let second = Ipv6Address::new(0x2001, 0xdb8, 0, 0, 0, 0, 0, 0x54);
    let servers = Servers::new(&octets);
    same(&rt, servers.len(), 2);
    same(&rt, servers.is_empty(), false);
    let mut turns = servers.iter();
    same(&rt, turns.next(), Some(first));
    let Ok(mut copy) = turns.clone() else {
        return same(&rt, "no copy", "a copy");
    };
    same(&rt, copy.next(), Some(second));
    same(&rt, copy.next(), None);
    same(&rt, turns.next(), Some(second));
    same(&rt, turns.next(), None);
    prints(&rt, rt.alloc(), &servers, " 2001:db8::53 2001:db8::54");
    let none = Servers::new(&octets[..15]);
    same(&rt, none.len(), 0);
    same(&rt, none.is_empty(), true);
    same(&rt, none.iter().next(), None);
    prints(&rt, rt.alloc(), &none, "");
}

#[test]
fn servers_that_are_written(rt: HostRuntime) {
    let first = Ipv6Address::new(0x2001, 0xdb8, 0, 0, 0, 0, 0, 0x53);
    let second = Ipv6Address::new(0xfe80, 0, 0, 0, 0, 0, 0, 1);
    let mut octets = [0xa5; 34];
    same(
        &rt,
        Servers::write(&[first, second], &mut octets[..31]),
        None,
    );
    same(&rt, octets, [0xa5; 34]);
    let Some(servers) = Servers::write(&[first, second], &mut octets) else {
        return same(&rt, "no servers", "two servers");
    };
    same(&rt, servers.len(), 2);
    let mut turns = servers.iter();
    same(&rt, turns.next(), Some(first));
    same(&rt, turns.next(), Some(second));
    same(&rt, turns.next(), None);
    same(
        &rt,
        octets,
        [
            0x20, 0x01, 0x0d, 0xb8, 0x00, 0x00, 0x00, 0x00, 0x00, 0x00, 0x00, 0x00, 0x00, 0x00,
            0x00, 0x53, 0xfe, 0x80, 0x00, 0x00, 0x00, 0x00, 0x00, 0x00, 0x00, 0x00, 0x00, 0x00,
            0x00, 0x00, 0x00, 0x01, 0xa5, 0xa5,
        ],
    );
    let none = Servers::write(&[], &mut []);
    same(&rt, none, Some(Servers::new(&[])));
}
