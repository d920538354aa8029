//! What is counted, and how it is told.

use super::PRINTED;
use super::packets::{PACKETS, append, append_interface, append_packet, append_section, pcap};
use crate::testing::{holds_of, same_of};
use capture::Ending;
use dump_captures::counts::Category;
use dump_captures::kind::{Kind, Reason};
use dump_captures::options::{Only, Options};
use dump_captures::run_onto;
use dump_captures::summary::write_summary;
use dump_captures::table::show_table;
use dump_captures::tally::{Counted, Outcome, Row, Tally};
use std::alloc::Global;
use std::process::Abort;

// The first line of each table.
const HEAD: &str =
    "kind\tlisted\tcut\tfragment\tshort\tchecksum\ttype\tquote\tname\tmalformed\toctets\n";

// The table and the line that sum up a tally are these, behind the table's first line.
fn check_told(
    rt: &impl Abort,
    alloc: Global,
    only: &Only,
    tally: &Tally,
    rows: &str,
    summary: &str,
) {
    let mut output = Vec::new(alloc);
    holds_of(rt, rows, show_table(&mut output, only, tally).is_ok());
    same_of(
        rt,
        rows,
        output.as_slice().strip_prefix(HEAD.as_bytes()),
        Some(rows.as_bytes()),
    );
    output.clear();
    holds_of(rt, summary, write_summary(&mut output, tally).is_ok());
    same_of(rt, summary, output.as_slice(), summary.as_bytes());
}

// Ends the test where what is printed is not what the packets of these places print.
fn check_texts(rt: &impl Abort, alloc: Global, summary: &str, output: &[u8], places: &[usize]) {
    let mut text = Vec::new(alloc);
    for place in places {
        if let Some((_, printed)) = PACKETS.get(*place) {
            append(rt, &mut text, printed.as_bytes());
        }
    }
    same_of(rt, summary, output, text.as_slice());
}

// The packets of a capture that are chosen, by their places, what the table says of them, and the line of counts.
type Chosen = (Only, &'static [usize], &'static str, &'static str);

const CHOSEN: &[Chosen] = &[
    (
        Only::ALL,
        &[0, 2, 3, 4, 5, 6, 7, 8, 9, 10, 11, 12],
        "icmp4\t2\t0\t0\t0\t0\t0\t0\t0\t0\t88\n\
            igmp\t1\t0\t0\t0\t0\t0\t0\t0\t0\t28\n\
            icmp6\t3\t0\t0\t0\t0\t0\t0\t0\t0\t293\n\
            dns\t1\t0\t0\t0\t1\t0\t0\t1\t0\t170\n\
            mdns\t1\t0\t0\t0\t0\t0\t0\t0\t0\t114\n\
            llmnr\t0\t0\t0\t0\t0\t0\t0\t0\t0\t0\n\
            nbns\t0\t0\t0\t0\t0\t0\t0\t0\t0\t0\n\
            dhcp\t1\t0\t0\t0\t0\t0\t0\t0\t0\t318\n\
            frame\t0\t0\t0\t0\t0\t0\t0\t0\t0\t0\n",
        "13 packets, 9 listed, 2 refused (1 checksum, 1 name), 1 of other protocols (1 tcp), 1 fragments (1 udp)",
    ),
    (
        Only {
            kinds: [false; 9],
            hop_by_hop: true,
        },
        &[2],
        "icmp4\t0\t0\t0\t0\t0\t0\t0\t0\t0\t0\n\
            igmp\t0\t0\t0\t0\t0\t0\t0\t0\t0\t0\n\
            icmp6\t1\t0\t0\t0\t0\t0\t0\t0\t0\t92\n\
            dns\t0\t0\t0\t0\t0\t0\t0\t0\t0\t0\n\
            mdns\t0\t0\t0\t0\t0\t0\t0\t0\t0\t0\n\
            llmnr\t0\t0\t0\t0\t0\t0\t0\t0\t0\t0\n\
            nbns\t0\t0\t0\t0\t0\t0\t0\t0\t0\t0\n\
            dhcp\t0\t0\t0\t0\t0\t0\t0\t0\t0\t0\n\
            frame\t0\t0\t0\t0\t0\t0\t0\t0\t0\t0\n",
        "13 packets, 1 listed, 0 refused, 1 of other protocols (1 tcp), 10 not chosen, \
            1 fragments (1 udp)",
    ),
    (
        Only {
            kinds: [false, false, false, true, false, false, false, false, true],
            hop_by_hop: false,
        },
        &[3, 10, 11, 12],
        "dns\t1\t0\t0\t0\t1\t0\t0\t1\t0\t170\n\
            frame\t0\t0\t0\t0\t0\t0\t0\t0\t0\t0\n",
        "13 packets, 1 listed, 2 refused (1 checksum, 1 name), 1 of other protocols (1 tcp), \
            8 not chosen, 1 fragments (1 udp)",
    ),
    (
        Only::NONE,
        &[],
        "",
        "13 packets, 0 listed, 0 refused, 1 of other protocols (1 tcp), 11 not chosen, \
            1 fragments (1 udp)",
    ),
];

// The packets that are chosen are counted, and printed or not.
fn check_chosen(rt: &impl Abort, alloc: Global, capture: &[u8], row: &Chosen, prints: bool) {
    let (only, places, rows, summary) = *row;
    let mut output = Vec::new(alloc);
    let options = Options {
        only,
        prints,
        ..PRINTED
    };
    let Ok(report) = run_onto(alloc, &options, capture, &mut output) else {
        holds_of(rt, summary, false);
        return;
    };
    check_told(rt, alloc, &only, &report.tally, rows, summary);
    same_of(rt, summary, report.ending, Some(Ending::Whole));
    check_texts(
        rt,
        alloc,
        summary,
        output.as_slice(),
        if prints { places } else { &[] },
    );
}

#[test]
fn packets_that_are_chosen(rt: HostRuntime) {
    let capture = pcap(&rt, rt.alloc(), PACKETS);
    for row in CHOSEN {
        check_chosen(&rt, rt.alloc(), capture.as_slice(), row, true);
        check_chosen(&rt, rt.alloc(), capture.as_slice(), row, false);
    }
}

// What becomes of packets of a link, each so often, and how a capture of them is summed up.
type Outcomes = (&'static [(Outcome, u16, u64)], &'static str);

const COUNTED: &[Outcomes] = &[
    (&[], "0 packets, 0 listed, 0 refused, 0 of other protocols"),
    (
        &[
            (Outcome::Listed(Kind::Icmp4), 1, 2),
            (Outcome::Refused(Kind::Dns, Reason::Cut), 1, 1),
            (Outcome::Other(TCP), 1, 1),
            (Outcome::Unread, 147, 1),
        ],
        "5 packets, 2 listed, 1 refused (1 cut), 1 of other protocols (1 tcp), 1 of link USER0",
    ),
    (
        &[
            (Outcome::Refused(Kind::Icmp4, Reason::Cut), 1, 1),
            (Outcome::Refused(Kind::Igmp, Reason::Fragment), 1, 2),
            (Outcome::Refused(Kind::Icmp6, Reason::Short), 1, 3),
            (Outcome::Refused(Kind::Dns, Reason::Checksum), 1, 4),
            (Outcome::Refused(Kind::Mdns, Reason::UnknownType), 1, 5),
            (Outcome::Refused(Kind::Dhcp, Reason::Quote), 1, 6),
            (Outcome::Refused(Kind::Frame, Reason::Name), 1, 7),
            (Outcome::Refused(Kind::Frame, Reason::Malformed), 1, 7),
            (Outcome::Refused(Kind::Icmp4, Reason::Malformed), 1, 1),
        ],
        "36 packets, 0 listed, 36 refused (1 cut, 2 fragment, 3 short, 4 checksum, 5 type, 6 quote, 7 name, \
            8 malformed), 0 of other protocols",
    ),
    (
        &[
            (Outcome::Passed, 1, 2),
            (Outcome::Unread, 65_535, 1),
            (Outcome::Unread, 0, 2),
            (Outcome::Passed, 1, 1),
            (Outcome::Unread, 65_535, 3),
        ],
        "9 packets, 0 listed, 0 refused, 0 of other protocols, 3 not chosen, \
            4 of link 65535, 2 of link NULL",
    ),
    (
        &[
            (Outcome::Kept(TCP), 1, 2),
            (Outcome::Other(Category::EtherType(0x0806)), 1, 2),
            (Outcome::Other(Category::EtherType(0x88b5)), 1, 1),
            (Outcome::Other(Category::Protocol(253)), 1, 1),
            (Outcome::Other(Category::Network(0xc021)), 9, 3),
            (Outcome::Other(Category::EtherType(0x0806)), 1, 1),
            (Outcome::Kept(Category::Protocol(17)), 1, 1),
        ],
        "11 packets, 0 listed, 0 refused, 8 of other protocols (3 arp, 1 ethertype 0x88b5, 1 protocol 253, \
            3 network 49185), 3 fragments (2 tcp, 1 udp)",
    ),
];

const TCP: Category = Category::Protocol(6);

#[test]
fn lines_that_sum_up(rt: HostRuntime) {
    for (outcomes, summary) in COUNTED {
        let mut tally = Tally::new();
        for (outcome, link_type, count) in *outcomes {
            for _ in 0..*count {
                tally.count(Counted::alone(*outcome), *link_type, 60);
            }
        }
        check_told(&rt, rt.alloc(), &Only::NONE, &tally, "", summary);
    }
}

// A packet of each of these links, of which none is read.
fn unread(rt: &impl Abort, alloc: Global, links: &[u32]) -> Vec<u8> {
    let mut capture = Vec::new(alloc);
    append_section(rt, alloc, &mut capture);
    for (link, place) in links.iter().zip(0..u32::MAX) {
        append_interface(rt, alloc, &mut capture, *link);
        append_packet(rt, alloc, &mut capture, place, 0, "4500");
    }
    capture
}

// The first sixteen links are counted by their numbers, and all others together.
#[test]
fn frames_of_eighteen_links(rt: HostRuntime) {
    const LINKS: &[u32] = &[
        147, 148, 149, 150, 151, 147, 152, 153, 154, 155, 156, 157, 158, 159, 160, 161, 162, 163,
        164, 163, 147, 162,
    ];
    const SUMMARY: &str =
        "22 packets, 0 listed, 0 refused, 0 of other protocols, 3 of link USER0, 1 of link USER1, \
        1 of link USER2, 1 of link USER3, 1 of link USER4, 1 of link USER5, 1 of link USER6, 1 of link USER7, \
        1 of link USER8, 1 of link USER9, 1 of link USER10, 1 of link USER11, 1 of link USER12, 1 of link USER13, \
        1 of link USER14, 2 of link USER15, 3 of other links";
    let alloc = rt.alloc();
    let capture = unread(&rt, alloc, LINKS);
    let mut output = Vec::new(alloc);
    let Ok(report) = run_onto(alloc, &PRINTED, capture.as_slice(), &mut output) else {
        holds_of(&rt, "answer", false);
        return;
    };
    check_told(&rt, alloc, &Only::NONE, &report.tally, "", SUMMARY);
    holds_of(&rt, "output", output.as_slice().is_empty());
}

// No number counts above the greatest.
#[test]
fn counts_at_their_limit(rt: HostRuntime) {
    const MOST: u64 = u64::MAX;
    const DHCP: usize = 7;
    let mut tally = Tally::new();
    tally.packets = MOST;
    tally.others.all = MOST;
    tally.joined = MOST - 1;
    tally.passed = MOST;
    tally.rows[DHCP].listed = MOST;
    tally.rows[DHCP].refused[5] = MOST;
    tally.rows[DHCP].octets = MOST - 1;
    tally.count(Counted::alone(Outcome::Other(TCP)), 1, 2);
    tally.count(Counted::alone(Outcome::Passed), 1, 2);
    let joined = Counted {
        outcome: Outcome::Listed(Kind::Dhcp),
        joined: 2,
    };
    tally.count(joined, 1, 2);
    tally.count(
        Counted::alone(Outcome::Refused(Kind::Dhcp, Reason::Quote)),
        1,
        2,
    );
    let totals = (tally.packets, tally.others.all, tally.passed, tally.joined);
    same_of(&rt, "totals", totals, (MOST, MOST, MOST, MOST));
    let row = Row {
        listed: MOST,
        refused: [0, 0, 0, 0, 0, MOST, 0, 0],
        octets: MOST,
    };
    same_of(&rt, "row", tally.rows[DHCP], row);
}
