use super::{QUERY, REPORT, SHORT_RECORD};
use crate::testing::{prints, same_of};
use icmp6_wire::icmpv6::Packet;
use icmp6_wire::mld::{AddressRecord, AddressRecordRepr, RecordRefusal, Refusal, Repr};
use std::process::Abort;

// Checks why these octets are refused.
fn check_refusal(rt: &impl Abort, octets: &[u8], wanted: Option<Refusal>) {
    let refusal = Repr::refusal(&Packet::new_unchecked(octets));
    same_of(rt, octets, refusal, wanted);
}

#[test]
fn the_first_check_that_fails_is_told(rt: HostRuntime) {
    check_refusal(&rt, &QUERY, None);
    check_refusal(&rt, &REPORT[..8], None);
    check_refusal(&rt, &[], Some(Refusal::Short));
    check_refusal(&rt, &REPORT[..7], Some(Refusal::Short));
    check_refusal(&rt, &QUERY[..27], Some(Refusal::Length));
    let other = [0x83, 0, 0, 0, 0, 0, 0, 0];
    check_refusal(&rt, &other, Some(Refusal::UnknownType(0x83)));
}

#[test]
fn short_records_are_told(rt: HostRuntime) {
    let short = AddressRecord::new_unchecked(&SHORT_RECORD[..19]);
    let refusal = AddressRecordRepr::refusal(&short);
    same_of(&rt, 19, refusal, Some(RecordRefusal::Short));
    let whole = AddressRecord::new_unchecked(&SHORT_RECORD[..20]);
    same_of(&rt, 20, AddressRecordRepr::refusal(&whole), None);
}

#[test]
fn texts_of_refusals(rt: HostRuntime) {
    let alloc = rt.alloc();
    prints(&rt, alloc, &Refusal::Short, "fewer than 8 bytes");
    prints(
        &rt,
        alloc,
        &Refusal::UnknownType(131),
        "type 131 is not read",
    );
    prints(
        &rt,
        alloc,
        &Refusal::Length,
        "fewer bytes than the header of its type",
    );
    prints(&rt, alloc, &RecordRefusal::Short, "fewer than 20 bytes");
    prints(
        &rt,
        alloc,
        &RecordRefusal::Cut,
        "fewer bytes than its sources and its auxiliary data take",
    );
}
