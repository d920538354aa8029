use crate::testing::same;
use arrayvec::ArrayVec;
use control_wire::{Ipv4Address, Ipv6Address};
use examples::reporter::MOST_SOURCES;
use examples::reporter::report::{MemberAddress, Report};
use examples::reporter::reported::AskedSource;
use group_wire::{Message, RecordsWriter};
use std::process::Abort;

fn group() -> Ipv4Address {
    Ipv4Address::new(233, 252, 0, 1)
}

fn report<A: MemberAddress>(
    group: A,
    is_member: bool,
    is_change: bool,
    asked: ArrayVec<AskedSource<A>, MOST_SOURCES>,
) -> Report<A> {
    Report {
        group,
        is_member,
        is_change,
        asked,
    }
}

// The octets of the message by which a group is reported, of no sources or of 192.0.2.77, and where it goes.
fn sends(
    rt: &impl Abort,
    report: &Report<Ipv4Address>,
    version: u8,
    to: Ipv4Address,
    wanted: &[u8],
) {
    let source = [Ipv4Address::new(192, 0, 2, 77)];
    let mut room = [0; 16];
    let mut records = RecordsWriter::new(&mut room);
    let sources: &[Ipv4Address] = if report.asked.is_empty() {
        &[]
    } else {
        &source
    };
    let pushed = records.push(report.record_type(), report.group, sources);
    same(rt, pushed, Ok(()));
    let mut octets = [0xa5; 64];
    let mut len = 0;
    if let Some(message) = report.message(version, records.records()) {
        len = message.buffer_len();
        if len <= 64 {
            message.emit_igmp(&mut octets[..len]);
        }
    }
    same(rt, octets.get(..len), Some(wanted));
    same(rt, report.destination(version), to);
}

// Joining, leaving and answering (RFC 2236 sections 2 and 9, RFC 3376 sections 4.2.12 and 4.2.14): by version 3
// CHANGE_TO_EXCLUDE_MODE, CHANGE_TO_INCLUDE_MODE and MODE_IS_EXCLUDE of nothing, and MODE_IS_INCLUDE of a source.
#[test]
fn each_version_has_its_messages(rt: HostRuntime) {
    let routers = Ipv4Address::new(224, 0, 0, 2);
    let reports = Ipv4Address::new(224, 0, 0, 22);
    let oldest = [0x12, 0, 4, 2, 233, 252, 0, 1];
    let older = [0x16, 0, 0, 2, 233, 252, 0, 1];
    let joins = report(group(), true, true, ArrayVec::new());
    let joined = [0x22, 0, 240, 0, 0, 0, 0, 1, 4, 0, 0, 0, 233, 252, 0, 1];
    sends(&rt, &joins, 1, group(), &oldest);
    sends(&rt, &joins, 2, group(), &older);
    sends(&rt, &joins, 3, reports, &joined);
    let leaves = report(group(), false, true, ArrayVec::new());
    let left = [0x22, 0, 241, 0, 0, 0, 0, 1, 3, 0, 0, 0, 233, 252, 0, 1];
    sends(&rt, &leaves, 1, routers, &[]);
    sends(&rt, &leaves, 2, routers, &[0x17, 0, 255, 1, 233, 252, 0, 1]);
    sends(&rt, &leaves, 3, reports, &left);
    let answers = report(group(), true, false, ArrayVec::new());
    let whole = [0x22, 0, 242, 0, 0, 0, 0, 1, 2, 0, 0, 0, 233, 252, 0, 1];
    sends(&rt, &answers, 2, group(), &older);
    sends(&rt, &answers, 3, reports, &whole);
    let mut asked = ArrayVec::new();
    asked.push(AskedSource {
        group: group(),
        source: Ipv4Address::new(192, 0, 2, 77),
    });
    let answers = report(group(), true, false, asked);
    let of_source = [
        0x22, 0, 48, 178, 0, 0, 0, 1, 1, 0, 0, 1, 233, 252, 0, 1, 192, 0, 2, 77,
    ];
    sends(&rt, &answers, 2, group(), &older);
    sends(&rt, &answers, 3, reports, &of_source);
}

// MLD has one older version, whose types of a report and of a done message are 131 and 132 (RFC 2710 section 3.1).
#[test]
fn each_version_of_mld_has_its_messages(rt: HostRuntime) {
    let group = Ipv6Address::new(0xff15, 0, 0, 0, 0, 0, 0, 1);
    let routers = Ipv6Address::new(0xff02, 0, 0, 0, 0, 0, 0, 2);
    let reports = Ipv6Address::new(0xff02, 0, 0, 0, 0, 0, 0, 0x16);
    let writer = RecordsWriter::new(&mut []);
    let records = writer.records();
    let joins = report(group, true, true, ArrayVec::new());
    let joined = Some(Message::OlderReport { group });
    same(&rt, joins.message(1, records), joined);
    same(&rt, joins.destination(1), group);
    same(&rt, joins.destination(2), reports);
    let leaves = report(group, false, true, ArrayVec::new());
    let left = Some(Message::Leave { group });
    same(&rt, leaves.message(1, records), left);
    same(&rt, leaves.destination(1), routers);
    let newest = Some(Message::Report { records });
    same(&rt, leaves.message(2, records), newest);
    same(&rt, leaves.destination(2), reports);
}
