use super::{BARE_ADVERT, FULL_ROUTER_ADVERT, REDIRECT, ROUTER_ADVERT};
use crate::testing::{prints, same_of};
use icmp6_wire::icmpv6::Packet;
use icmp6_wire::ndisc::{Refusal, Repr};
use std::process::Abort;

// Checks why these octets are refused.
fn check_refusal(rt: &impl Abort, octets: &[u8], wanted: Option<Refusal>) {
    let refusal = Repr::refusal(&Packet::new_unchecked(octets));
    same_of(rt, octets, refusal, wanted);
}

#[test]
fn the_first_check_that_fails_is_told(rt: HostRuntime) {
    check_refusal(&rt, &REDIRECT, None);
    check_refusal(&rt, &ROUTER_ADVERT[..7], Some(Refusal::Short));
    check_refusal(&rt, &ROUTER_ADVERT[..15], Some(Refusal::Length));
    check_refusal(&rt, &BARE_ADVERT[..23], Some(Refusal::Length));
    let other = [0x84, 0, 0, 0, 0, 0, 0, 0];
    check_refusal(&rt, &other, Some(Refusal::UnknownType(0x84)));
}

// Checks why a router advertisement with all options is refused where the prefix, at byte 32, counts so many units, and
// so many octets of it are there.
fn check_prefix(rt: &impl Abort, units: u8, len: usize, wanted: Option<Refusal>) {
    let mut octets = FULL_ROUTER_ADVERT;
    octets[33] = units;
    let part = octets.get(..len).expect(rt, "there are 64 octets");
    check_refusal(rt, part, wanted);
}

#[test]
fn the_first_option_that_is_not_whole_is_told(rt: HostRuntime) {
    let cut = Some(Refusal::OptionCut { kind: 3, place: 32 });
    check_prefix(&rt, 4, 64, None);
    check_prefix(&rt, 4, 32, None);
    check_prefix(&rt, 4, 33, cut);
    check_prefix(&rt, 4, 63, cut);
    check_prefix(&rt, 5, 64, cut);
    check_prefix(
        &rt,
        0,
        64,
        Some(Refusal::OptionEmpty { kind: 3, place: 32 }),
    );
    let short = Refusal::OptionLength {
        kind: 3,
        units: 3,
        place: 32,
    };
    check_prefix(&rt, 3, 64, Some(short));
}

#[test]
fn a_redirected_packet_has_length_6_or_more(rt: HostRuntime) {
    let mut octets = REDIRECT;
    octets[49] = 5;
    let short = Refusal::OptionLength {
        kind: 4,
        units: 5,
        place: 48,
    };
    check_refusal(&rt, &octets, Some(short));
}

#[test]
fn texts_of_refusals(rt: HostRuntime) {
    let alloc = rt.alloc();
    prints(&rt, alloc, &Refusal::Short, "fewer than 8 bytes");
    prints(
        &rt,
        alloc,
        &Refusal::UnknownType(132),
        "type 132 is not read",
    );
    prints(
        &rt,
        alloc,
        &Refusal::Length,
        "fewer bytes than the header of its type",
    );
}

#[test]
fn texts_of_refused_options(rt: HostRuntime) {
    let alloc = rt.alloc();
    prints(
        &rt,
        alloc,
        &Refusal::OptionCut { kind: 3, place: 32 },
        "the option of type 3 at byte 32 is cut",
    );
    prints(
        &rt,
        alloc,
        &Refusal::OptionEmpty { kind: 3, place: 32 },
        "the option of type 3 at byte 32 has length 0",
    );
    let short = Refusal::OptionLength {
        kind: 4,
        units: 5,
        place: 48,
    };
    prints(
        &rt,
        alloc,
        &short,
        "the option of type 4 at byte 48 has length 5, too short for its type",
    );
}
