use crate::testing::same;
use control_wire::{Ipv4Address, Ipv6Address};
use examples::reporter::{MOST_GROUPS, Reporter};
use group_wire::{Membership, Message, Query, Sources};

fn group() -> Ipv4Address {
    Ipv4Address::new(233, 252, 0, 1)
}

fn other_group() -> Ipv4Address {
    Ipv4Address::new(233, 252, 0, 2)
}

// A query of version 2 or 1, which is to be answered within so many tenths of a second (RFC 2236 section 2.2).
fn older_query(tenths: u16, group: Ipv4Address) -> Membership<'static, Ipv4Address> {
    Message::OlderQuery {
        max_resp_code: tenths,
        group,
    }
}

// A query of version 3, which is to be answered within ten seconds (RFC 3376 section 4.1).
fn query(group: Ipv4Address, sources: Sources<'_, Ipv4Address>) -> Membership<'_, Ipv4Address> {
    Message::Query(Query {
        max_resp_code: 100,
        group,
        s_flag: false,
        qrv: 2,
        qqic: 125,
        sources,
    })
}

// What is reported: of the group or of the other one, whether the host is a member of it, whether that has changed, and
// of how many sources.
type Told = Option<(Ipv4Address, bool, bool, usize)>;

fn next(reporter: &mut Reporter<Ipv4Address>, chance: u32) -> Told {
    match reporter.next_report(chance) {
        Some(report) => Some((
            report.group,
            report.is_member,
            report.is_change,
            report.asked.len(),
        )),
        None => None,
    }
}

// A member of the group, which it has reported.
fn member() -> Reporter<Ipv4Address> {
    let mut reporter = Reporter::new();
    let _kept = reporter.join(&group());
    let _first = next(&mut reporter, 0);
    let _second = next(&mut reporter, 0);
    reporter
}

// An answer of the whole group, and of so many sources.
fn answer(group: Ipv4Address, sources: usize) -> Told {
    Some((group, true, false, sources))
}

// Twice, the second time within a second (RFC 3376 sections 5.1 and 8.11).
#[test]
fn a_change_is_reported_twice(rt: HostRuntime) {
    let mut reporter = Reporter::new();
    same(&rt, reporter.join(&group()), true);
    same(
        &rt,
        next(&mut reporter, 1_250),
        Some((group(), true, true, 0)),
    );
    same(&rt, next(&mut reporter, 0), None);
    reporter.pass(248);
    same(&rt, next(&mut reporter, 0), None);
    reporter.pass(1);
    same(&rt, next(&mut reporter, 7), Some((group(), true, true, 0)));
    reporter.pass(10_000);
    same(&rt, reporter.join(&group()), true);
    same(&rt, next(&mut reporter, 0), None);
    reporter.leave(&group());
    same(&rt, reporter.is_member(&group()), false);
    for _ in 0..2 {
        same(
            &rt,
            next(&mut reporter, 1_000),
            Some((group(), false, true, 0)),
        );
        same(&rt, next(&mut reporter, 0), None);
        same(&rt, reporter.groups().len(), 1);
        reporter.pass(1_000);
    }
    same(&rt, reporter.groups().len(), 0);
    same(&rt, next(&mut reporter, 0), None);
}

// Who joins again before the last report of the change says so (RFC 3376 section 5.1).
#[test]
fn the_last_change_counts(rt: HostRuntime) {
    let mut reporter = member();
    reporter.leave(&group());
    same(
        &rt,
        next(&mut reporter, 500),
        Some((group(), false, true, 0)),
    );
    same(&rt, reporter.join(&group()), true);
    same(
        &rt,
        next(&mut reporter, 500),
        Some((group(), true, true, 0)),
    );
    reporter.pass(500);
    same(
        &rt,
        next(&mut reporter, 500),
        Some((group(), true, true, 0)),
    );
    reporter.pass(500);
    same(&rt, next(&mut reporter, 500), None);
}

// Each row: the group that a query asks about, and which groups are reported then (RFC 2236 section 3).
#[test]
fn queries_are_answered_of_what_they_ask_about(rt: HostRuntime) {
    let unspecified = Ipv4Address::UNSPECIFIED;
    let rows: [(Ipv4Address, &[Told]); 4] = [
        (
            unspecified,
            &[answer(group(), 0), answer(other_group(), 0), None],
        ),
        (group(), &[answer(group(), 0), None]),
        (other_group(), &[answer(other_group(), 0), None]),
        (Ipv4Address::new(233, 252, 0, 3), &[None]),
    ];
    for (asked, wanted) in rows {
        let mut reporter = member();
        let _kept = reporter.join(&other_group());
        let _first = next(&mut reporter, 0);
        let _second = next(&mut reporter, 0);
        reporter.hear(&older_query(100, asked), 0);
        for told in wanted {
            same(&rt, next(&mut reporter, 0), *told);
        }
    }
}

// Within the time that the query says, ten seconds; a second query has it answered earlier, but not later
// (RFC 3376 section 5.2).
#[test]
fn an_answer_comes_in_its_time(rt: HostRuntime) {
    let mut reporter = member();
    let all = query(Ipv4Address::UNSPECIFIED, Sources::none());
    reporter.hear(&all, 10_001 + 3_000);
    reporter.hear(&all, 10_000);
    reporter.pass(2_000);
    same(&rt, next(&mut reporter, 0), None);
    reporter.hear(&query(group(), Sources::none()), 500);
    reporter.pass(499);
    same(&rt, next(&mut reporter, 0), None);
    reporter.pass(1);
    same(&rt, next(&mut reporter, 0), answer(group(), 0));
    reporter.pass(10_000);
    same(&rt, next(&mut reporter, 0), None);
}

#[test]
fn who_has_left_answers_nothing(rt: HostRuntime) {
    let mut reporter = member();
    reporter.hear(&query(group(), Sources::none()), 0);
    reporter.leave(&group());
    reporter.hear(&query(group(), Sources::none()), 0);
    same(&rt, next(&mut reporter, 0), Some((group(), false, true, 0)));
    same(&rt, next(&mut reporter, 0), Some((group(), false, true, 0)));
    same(&rt, next(&mut reporter, 0), None);
}

// What another host reports need not be answered (RFC 2236 section 3), but is still to be told where it has changed.
#[test]
fn a_report_of_another_host_is_an_answer(rt: HostRuntime) {
    let reports = [
        Message::OldestReport { group: group() },
        Message::OlderReport { group: group() },
    ];
    for report in &reports {
        let mut reporter = member();
        reporter.hear(&query(Ipv4Address::UNSPECIFIED, Sources::none()), 500);
        reporter.hear(report, 0);
        reporter.pass(500);
        same(&rt, next(&mut reporter, 0), None);
        reporter.leave(&group());
        reporter.hear(report, 0);
        same(&rt, next(&mut reporter, 0), Some((group(), false, true, 0)));
        same(&rt, next(&mut reporter, 0), Some((group(), false, true, 0)));
    }
    let mut reporter = member();
    reporter.hear(&query(group(), Sources::new(&[192, 0, 2, 1])), 500);
    reporter.hear(
        &Message::OlderReport {
            group: other_group(),
        },
        0,
    );
    reporter.pass(500);
    same(&rt, next(&mut reporter, 0), answer(group(), 1));
}

// Sources of several queries are answered at once; of a query of the whole group no source is told apart
// (RFC 3376 section 5.2).
#[test]
fn sources_are_answered_together(rt: HostRuntime) {
    let octets = [192, 0, 2, 1, 192, 0, 2, 2];
    let both = query(group(), Sources::new(&octets));
    let one = query(group(), Sources::new(&octets[4..]));
    let whole = query(group(), Sources::none());
    let mut reporter = member();
    reporter.hear(&both, 100);
    reporter.hear(&one, 10);
    reporter.hear(&query(other_group(), Sources::new(&octets)), 0);
    reporter.pass(10);
    same(&rt, next(&mut reporter, 0), answer(group(), 2));
    same(&rt, next(&mut reporter, 0), None);
    reporter.hear(&one, 0);
    same(&rt, next(&mut reporter, 0), answer(group(), 1));
    reporter.hear(&one, 0);
    reporter.hear(&whole, 0);
    same(&rt, next(&mut reporter, 0), answer(group(), 0));
    reporter.hear(&whole, 0);
    reporter.hear(&one, 0);
    same(&rt, next(&mut reporter, 0), answer(group(), 0));
    same(&rt, next(&mut reporter, 0), None);
}

// 90 sources are more than are kept.
#[test]
fn of_too_many_sources_the_group_is_reported(rt: HostRuntime) {
    let mut octets = [0; 360];
    for number in 0..90 {
        octets[4 * number + 3] = number as u8;
    }
    let mut reporter = member();
    reporter.hear(&query(group(), Sources::new(&octets[4..])), 0);
    same(&rt, next(&mut reporter, 0), answer(group(), 89));
    reporter.hear(&query(group(), Sources::new(&octets)), 0);
    same(&rt, next(&mut reporter, 0), answer(group(), 0));
}

// An older version is spoken for two query intervals and a response time after a query of it: with the defaults 260
// seconds (RFC 3376 section 8.12), and here 2 * 16 + 10.
#[test]
fn the_querier_chooses_the_version(rt: HostRuntime) {
    let mut reporter = member();
    same(&rt, reporter.version(), 3);
    reporter.hear(&older_query(0, group()), 0);
    reporter.hear(&older_query(100, group()), 0);
    same(&rt, reporter.version(), 1);
    reporter.pass(259_999);
    same(&rt, reporter.version(), 1);
    reporter.pass(1);
    same(&rt, reporter.version(), 3);
    let newest = Message::Query(Query {
        max_resp_code: 100,
        group: group(),
        s_flag: false,
        qrv: 2,
        qqic: 16,
        sources: Sources::none(),
    });
    reporter.hear(&newest, 0);
    reporter.hear(&older_query(100, group()), 0);
    same(&rt, reporter.version(), 2);
    reporter.pass(41_999);
    same(&rt, reporter.version(), 2);
    reporter.pass(1);
    same(&rt, reporter.version(), 3);
}

#[test]
fn a_full_list_takes_no_group(rt: HostRuntime) {
    let mut reporter = Reporter::new();
    for number in 0..MOST_GROUPS as u8 {
        let joined = Ipv4Address::new(233, 252, 1, number);
        same(&rt, reporter.join(&joined), true);
    }
    same(&rt, reporter.join(&group()), false);
    same(&rt, reporter.is_member(&group()), false);
    same(&rt, reporter.groups().len(), MOST_GROUPS);
    same(&rt, reporter.join(&Ipv4Address::new(233, 252, 1, 0)), true);
}

// MLD has one older version (RFC 2710).
#[test]
fn a_host_of_ipv6_reports(rt: HostRuntime) {
    let group = Ipv6Address::new(0xff15, 0, 0, 0, 0, 0, 0, 1);
    let mut reporter = Reporter::<Ipv6Address>::new();
    same(&rt, reporter.join(&group), true);
    same(&rt, reporter.version(), 2);
    let max_resp_code = 1_000;
    let query = Message::OlderQuery {
        max_resp_code,
        group,
    };
    reporter.hear(&query, 999);
    same(&rt, reporter.version(), 1);
    for is_some in [true, true, false] {
        same(&rt, reporter.next_report(0).is_some(), is_some);
    }
    reporter.pass(999);
    same(&rt, reporter.next_report(0).is_some(), true);
}
