ghost use Rattle.wirebase.specs.Ipv6Address.{IsMulticast};

use super::{QUERY, short_record};
use crate::testing::{holds_of, same, same_of};
use icmp6_wire::icmpv6::Packet;
use icmp6_wire::mld::{AddressRecordRepr, RecordRefusal, RecordType, Records, Repr, Sources};
use std::process::Abort;
use std::test::Fail;
use wirebase::{IPV6_LINK_LOCAL_ALL_NODES, IPV6_LINK_LOCAL_ALL_ROUTERS, Ipv6Address};

// A record of ff02::1 with the source ff02::2 and a word of auxiliary data, and one of ff02::2 with neither.
const RECORDS: [u8; 60] = [
    0x01, 0x01, 0x00, 0x01, 0xff, 0x02, 0, 0, 0, 0, 0, 0, 0, 0, 0, 0, 0, 0, 0, 0x01, 0xff, 0x02, 0,
    0, 0, 0, 0, 0, 0, 0, 0, 0, 0, 0, 0, 0x02, 0xaa, 0xbb, 0xcc, 0xdd, 0x04, 0x00, 0x00, 0x00, 0xff,
    0x02, 0, 0, 0, 0, 0, 0, 0, 0, 0, 0, 0, 0, 0, 0x02,
];

fn with_source() -> AddressRecordRepr<'static>
    ensures { IsMulticast result.mcast_addr }
{
    AddressRecordRepr {
        record_type: RecordType::ModeIsInclude,
        aux_data_len: 1,
        num_srcs: 1,
        mcast_addr: IPV6_LINK_LOCAL_ALL_NODES,
        payload: &RECORDS[20..40],
    }
}

fn bare() -> AddressRecordRepr<'static>
    ensures { IsMulticast result.mcast_addr }
{
    AddressRecordRepr::new(RecordType::ChangeToExclude, IPV6_LINK_LOCAL_ALL_ROUTERS)
}

#[test]
fn records_of_a_report_in_turn(rt: HostRuntime) {
    let mut records = Records::new(2, &RECORDS);
    same(&rt, records.next(), Some(Ok(with_source())));
    same(&rt, records.next(), Some(Ok(bare())));
    same(&rt, records.next(), None);
    same(&rt, records.next(), None);
}

#[test]
fn what_stands_behind_the_last_record_is_left_out(rt: HostRuntime) {
    let mut records = Records::new(1, &RECORDS);
    same(&rt, records.next(), Some(Ok(with_source())));
    same(&rt, records.next(), None);
    same(&rt, Records::new(0, &RECORDS).next(), None);
}

#[test]
fn a_record_that_is_cut_is_refused_once(rt: HostRuntime) {
    for len in 0..40 {
        let refusal = if len < 20 {
            RecordRefusal::Short
        } else {
            RecordRefusal::Cut
        };
        let mut records = Records::new(2, &RECORDS[..len]);
        same_of(&rt, len, records.next(), Some(Err(refusal)));
        same_of(&rt, len, records.next(), None);
    }
    let mut records = Records::new(3, &RECORDS);
    same(&rt, records.next(), Some(Ok(with_source())));
    same(&rt, records.next(), Some(Ok(bare())));
    same(&rt, records.next(), Some(Err(RecordRefusal::Short)));
    same(&rt, records.next(), None);
}

#[test]
fn copies_of_records_and_sources_go_on_from_the_same_place(rt: HostRuntime) -> Result<(), Fail> {
    let mut records = Records::new(2, &RECORDS);
    same(&rt, records.next(), Some(Ok(with_source())));
    let mut copy = records.clone()?;
    same(&rt, copy.next(), Some(Ok(bare())));
    same(&rt, copy.next(), None);
    same(&rt, records.next(), Some(Ok(bare())));
    let mut sources = with_source().sources();
    let mut copy = sources.clone()?;
    same(&rt, copy.next(), Some(IPV6_LINK_LOCAL_ALL_ROUTERS));
    same(&rt, sources.next(), Some(IPV6_LINK_LOCAL_ALL_ROUTERS));
    Ok(())
}

#[test]
fn sources_of_a_record_in_turn(rt: HostRuntime) {
    let mut sources = with_source().sources();
    same(&rt, sources.next(), Some(IPV6_LINK_LOCAL_ALL_ROUTERS));
    same(&rt, sources.next(), None);
    same(&rt, sources.next(), None);
    same(&rt, bare().sources().next(), None);
}

#[test]
fn sources_are_as_many_as_are_counted_and_whole(rt: HostRuntime) {
    same(&rt, short_record().sources().next(), None);
    let cut = AddressRecordRepr {
        num_srcs: 2,
        ..with_source()
    };
    let mut sources = cut.sources();
    same(&rt, sources.next(), Some(IPV6_LINK_LOCAL_ALL_ROUTERS));
    same(&rt, sources.next(), None);
    let uncounted = AddressRecordRepr {
        num_srcs: 0,
        ..with_source()
    };
    same(&rt, uncounted.sources().next(), None);
}

// Checks the sources of a query in these octets.
fn check_query_sources(rt: &impl Abort, octets: &[u8], wanted: &[Ipv6Address]) {
    match Repr::parse(&Packet::new_unchecked(octets)) {
        Ok(Repr::Query { num_srcs, data, .. }) => {
            let mut sources = Sources::new(num_srcs, data);
            for &source in wanted {
                same_of(rt, octets, sources.next(), Some(source));
            }
            same_of(rt, octets, sources.next(), None);
        }
        _ => holds_of(rt, octets, false),
    }
}

#[test]
fn sources_of_a_query_in_turn(rt: HostRuntime) {
    check_query_sources(&rt, &QUERY, &[IPV6_LINK_LOCAL_ALL_ROUTERS]);
    check_query_sources(&rt, &QUERY[..43], &[]);
    check_query_sources(&rt, &QUERY[..28], &[]);
}

#[test]
fn what_stands_behind_the_sources_is_left_out(rt: HostRuntime) {
    let mut sources = Sources::new(1, &RECORDS[4..36]);
    same(&rt, sources.next(), Some(IPV6_LINK_LOCAL_ALL_NODES));
    same(&rt, sources.next(), None);
    let mut whole = Sources::new(3, &RECORDS[4..40]);
    same(&rt, whole.next(), Some(IPV6_LINK_LOCAL_ALL_NODES));
    same(&rt, whole.next(), Some(IPV6_LINK_LOCAL_ALL_ROUTERS));
    same(&rt, whole.next(), None);
    same(&rt, Sources::new(0, &RECORDS[4..36]).next(), None);
}
