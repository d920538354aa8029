ghost use Rattle.std.specs.Prelude.{◌≡◌, ◌≤◌, length};

use crate::testing::same;
use control_wire::{Duration, Ipv4Address, Ipv6Address};
use examples::membership::{
    Filter, FilterMode, OlderQueriers, keep_sources, older_querier_time, report_change,
    report_response, report_state, spoken_version,
};
use group_wire::{Full, Membership, Message, Query, RecordsWriter, Sources};
use std::process::Abort;

// 239.1.2.3, and three of its sources.
fn group() -> Ipv4Address {
    Ipv4Address::new(239, 1, 2, 3)
}

fn source(number: u8) -> Ipv4Address {
    Ipv4Address::new(192, 0, 2, number)
}

fn includes(sources: &[Ipv4Address]) -> Filter<'_, Ipv4Address>
    ensures { result.sources.now ≡ sources.now }
{
    Filter {
        mode: FilterMode::Include,
        sources,
    }
}

fn excludes(sources: &[Ipv4Address]) -> Filter<'_, Ipv4Address>
    ensures { result.sources.now ≡ sources.now }
{
    Filter {
        mode: FilterMode::Exclude,
        sources,
    }
}

// Ends the test unless these are the records, as a report has them behind its first 8 bytes.
fn has_records(rt: &impl Abort, records: &RecordsWriter<'_, Ipv4Address>, wanted: &[u8]) {
    let report: Membership<'_, Ipv4Address> = Message::Report {
        records: records.records(),
    };
    let mut packet = [0; 64];
    let len = report.buffer_len();
    if len <= 64 {
        report.emit_igmp(&mut packet[..len]);
    }
    same(rt, packet.get(8..len), Some(wanted));
}

// Ends the test unless a change of state is told by these records.
fn changes(
    rt: &impl Abort,
    old: Filter<'_, Ipv4Address>,
    new: Filter<'_, Ipv4Address>,
    wanted: &[u8],
)
    requires old { length old.sources.now ≤ 2 }
    requires new { length new.sources.now ≤ 2 }
{
    let mut room = [source(0); 2];
    let mut octets = [0xa5; 40];
    let mut records = RecordsWriter::new(&mut octets);
    let told = report_change(&mut records, group(), &old, &new, &mut room);
    same(rt, told, Ok(()));
    has_records(rt, &records, wanted);
}

#[test]
fn changes_of_state_are_told(rt: HostRuntime) {
    let [a, b, c] = [source(1), source(2), source(3)];
    // ALLOW_NEW_SOURCES (c), BLOCK_OLD_SOURCES (a)
    let allowed_and_blocked = [
        5, 0, 0, 1, 239, 1, 2, 3, 192, 0, 2, 3, 6, 0, 0, 1, 239, 1, 2, 3, 192, 0, 2, 1,
    ];
    changes(
        &rt,
        includes(&[a, b]),
        includes(&[b, c]),
        &allowed_and_blocked,
    );
    changes(
        &rt,
        excludes(&[b, c]),
        excludes(&[a, b]),
        &allowed_and_blocked,
    );

    // of an empty list there is no record
    changes(&rt, includes(&[a, b]), includes(&[b, a]), &[]);
    changes(
        &rt,
        Filter::none(),
        includes(&[c]),
        &[5, 0, 0, 1, 239, 1, 2, 3, 192, 0, 2, 3],
    );
    changes(
        &rt,
        includes(&[a]),
        Filter::none(),
        &[6, 0, 0, 1, 239, 1, 2, 3, 192, 0, 2, 1],
    );
    changes(
        &rt,
        excludes(&[a]),
        excludes(&[]),
        &[5, 0, 0, 1, 239, 1, 2, 3, 192, 0, 2, 1],
    );

    // CHANGE_TO_EXCLUDE_MODE and CHANGE_TO_INCLUDE_MODE have the sources of the new state, or none
    changes(
        &rt,
        Filter::none(),
        excludes(&[]),
        &[4, 0, 0, 0, 239, 1, 2, 3],
    );
    changes(
        &rt,
        excludes(&[a]),
        Filter::none(),
        &[3, 0, 0, 0, 239, 1, 2, 3],
    );
    let all_but_two = [4, 0, 0, 2, 239, 1, 2, 3, 192, 0, 2, 2, 192, 0, 2, 3];
    changes(&rt, includes(&[a]), excludes(&[b, c]), &all_but_two);
}

#[test]
fn a_full_report_keeps_the_records_before(rt: HostRuntime) {
    let olds = [source(1)];
    let news = [source(2)];
    let mut room = [source(0)];
    let mut octets = [0; 23];
    let mut records = RecordsWriter::new(&mut octets);
    let old = includes(&olds);
    let new = includes(&news);
    let told = report_change(&mut records, group(), &old, &new, &mut room);
    same(&rt, told, Err(Full));
    has_records(&rt, &records, &[5, 0, 0, 1, 239, 1, 2, 3, 192, 0, 2, 2]);
    same(&rt, report_state(&mut records, group(), &old), Err(Full));
    same(
        &rt,
        report_state(&mut records, group(), &Filter::none()),
        Ok(()),
    );
    same(
        &rt,
        report_state(&mut records, group(), &excludes(&[])),
        Ok(()),
    );
    same(&rt, records.records().len(), 2);
}

#[test]
fn queries_are_answered(rt: HostRuntime) {
    let [a, b, c] = [source(1), source(2), source(3)];
    let mut room = [a; 2];
    let mut octets = [0; 64];
    let mut records = RecordsWriter::new(&mut octets);
    let both = [b, a];
    let included = includes(&both);
    let excluded = excludes(&both[..1]);

    // MODE_IS_INCLUDE (b, a), MODE_IS_EXCLUDE (b)
    same(&rt, report_state(&mut records, group(), &included), Ok(()));
    same(&rt, report_state(&mut records, group(), &excluded), Ok(()));
    let states = [
        1, 0, 0, 2, 239, 1, 2, 3, 192, 0, 2, 2, 192, 0, 2, 1, 2, 0, 0, 1, 239, 1, 2, 3, 192, 0, 2,
        2,
    ];
    has_records(&rt, &records, &states);
    records.clear();

    // of b and c it listens to b, or to c
    let asked = [c, b];
    let told = report_response(&mut records, group(), &included, &asked, &mut room);
    same(&rt, told, Ok(()));
    let told = report_response(&mut records, group(), &excluded, &asked, &mut room);
    same(&rt, told, Ok(()));
    let listened = [
        1, 0, 0, 1, 239, 1, 2, 3, 192, 0, 2, 2, 1, 0, 0, 1, 239, 1, 2, 3, 192, 0, 2, 3,
    ];
    has_records(&rt, &records, &listened);
    records.clear();

    // of c alone, or of b alone, to none
    let told = report_response(&mut records, group(), &included, &[c], &mut room);
    same(&rt, told, Ok(()));
    let told = report_response(&mut records, group(), &excluded, &[b], &mut room);
    same(&rt, told, Ok(()));
    has_records(&rt, &records, &[]);

    // of the group alone, its state
    let told = report_response(&mut records, group(), &excluded, &[], &mut room);
    same(&rt, told, Ok(()));
    has_records(&rt, &records, &[2, 0, 0, 1, 239, 1, 2, 3, 192, 0, 2, 2]);
}

// A query of 239.1.2.3 and the sources 192.0.2.1 and 192.0.2.2: within 10 s, its robustness variable 2, its interval
// 125 s.
const QUERY: [u8; 20] = [
    0x11, 0x64, 0x77, 0x13, 0xef, 0x01, 0x02, 0x03, 0x02, 0x7d, 0x00, 0x02, 0xc0, 0x00, 0x02, 0x01,
    0xc0, 0x00, 0x02, 0x02,
];

#[test]
fn a_query_is_kept(rt: HostRuntime) {
    let Ok(message) = Membership::<Ipv4Address>::parse_igmp(&QUERY) else {
        return same(&rt, "no message", "a query");
    };
    same(
        &rt,
        older_querier_time(&message),
        Some(Duration::from_secs(260)),
    );
    match message {
        Message::Query(query) => {
            let mut kept = [source(9); 3];
            same(&rt, keep_sources(&query.sources, &mut kept), Some(2));
            same(&rt, kept, [source(1), source(2), source(9)]);
            same(&rt, keep_sources(&query.sources, &mut kept[..1]), None);
        }
        _ => same(&rt, "another message", "a query"),
    }
}

#[test]
fn a_listener_of_ipv6_answers(rt: HostRuntime) {
    let group = Ipv6Address::new(0xff15, 0, 0, 0, 0, 0, 1, 3);
    let source = Ipv6Address::new(0x2001, 0xdb8, 0, 0, 0, 0, 0, 5);
    let mut room = [source; 1];
    let mut octets = [0; 36];
    let mut records = RecordsWriter::<Ipv6Address>::new(&mut octets);
    let state = Filter {
        mode: FilterMode::Exclude,
        sources: &[],
    };
    let told = report_response(&mut records, group, &state, &[source], &mut room);
    same(&rt, told, Ok(()));
    match records.records().iter().next() {
        Some(record) => {
            same(&rt, record.group, group);
            same(&rt, record.sources.iter().next(), Some(source));
        }
        None => same(&rt, "no record", "a record"),
    }
}

// The time that a query of this robustness variable, interval and response code sets.
fn time_of(qrv: u8, qqic: u8, max_resp_code: u16) -> Option<Duration> {
    let message: Membership<'_, Ipv6Address> = Message::Query(Query {
        max_resp_code,
        group: Ipv6Address::UNSPECIFIED,
        s_flag: false,
        qrv,
        qqic,
        sources: Sources::none(),
    });
    older_querier_time(&message)
}

#[test]
fn times_of_older_queriers(rt: HostRuntime) {
    same(&rt, time_of(2, 125, 10000), Some(Duration::from_secs(260)));
    same(&rt, time_of(0, 10, 0), Some(Duration::from_secs(20)));
    same(
        &rt,
        time_of(7, 0xff, 1),
        Some(Duration::from_millis(222_208_001)),
    );
    let older: Membership<'_, Ipv4Address> = Message::OlderQuery {
        max_resp_code: 100,
        group: Ipv4Address::UNSPECIFIED,
    };
    same(&rt, older_querier_time(&older), None);
}

#[test]
fn a_host_speaks_the_lowest_version(rt: HostRuntime) {
    let rows = [(0, 0, 3, 2), (0, 5, 2, 2), (5, 0, 1, 1), (5, 5, 1, 1)];
    for (version1, version2, igmp, mld) in rows {
        let timers = OlderQueriers {
            version1: Duration::from_micros(version1),
            version2: Duration::from_micros(version2),
        };
        same(&rt, spoken_version::<Ipv4Address>(&timers), igmp);
        same(&rt, spoken_version::<Ipv6Address>(&timers), mld);
    }
}
