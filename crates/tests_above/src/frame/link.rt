use crate::testing::same_of;
use frame_wire::link::{EthernetHeader, Frame, Link, Network, Refusal, VlanTag};
use std::process::Abort;
use wirebase::EthernetAddress;

// A frame of a link, and what it holds.
pub(super) type Row = (Link, &'static [u8], Network, &'static [u16], &'static [u8]);

const ROWS: &[Row] = &[
    (
        Link::Ethernet,
        &[
            0xff, 0xff, 0xff, 0xff, 0xff, 0xff, 2, 0, 0, 0, 0, 1, 0x08, 0x00, 0x45, 0x00,
        ],
        Network::Ipv4,
        &[],
        &[0x45, 0x00],
    ),
    // A tag of a service around one of a customer, VLANs 100 and 4,095, with a priority.
    (
        Link::Ethernet,
        &[
            0x33, 0x33, 0, 0, 0, 1, 2, 0, 0, 0, 0, 1, 0x88, 0xa8, 0x00, 0x64, 0x81, 0x00, 0xef,
            0xff, 0x86, 0xdd, 0x60,
        ],
        Network::Ipv6,
        &[100, 4095],
        &[0x60],
    ),
    // ARP.
    (
        Link::Ethernet,
        &[
            0xff, 0xff, 0xff, 0xff, 0xff, 0xff, 2, 0, 0, 0, 0, 1, 0x08, 0x06, 0x00, 0x01,
        ],
        Network::Other(0x0806),
        &[],
        &[0x00, 0x01],
    ),
    // A PPPoE session of IPv6, and a discovery, which is none.
    (
        Link::Ethernet,
        &[
            2, 0, 0, 0, 0, 2, 2, 0, 0, 0, 0, 1, 0x88, 0x64, 0x11, 0x00, 0x00, 0x07, 0x00, 0x03,
            0x00, 0x57, 0x60,
        ],
        Network::Ipv6,
        &[],
        &[0x60],
    ),
    (
        Link::Ethernet,
        &[
            2, 0, 0, 0, 0, 2, 2, 0, 0, 0, 0, 1, 0x88, 0x64, 0x11, 0xa7, 0x00, 0x07, 0x00, 0x00,
        ],
        Network::Other(0x8864),
        &[],
        &[0x11, 0xa7, 0x00, 0x07, 0x00, 0x00],
    ),
    (
        Link::LinuxSll,
        &[0, 0, 0, 1, 0, 6, 2, 0, 0, 0, 0, 1, 0, 0, 0x08, 0x00, 0x45],
        Network::Ipv4,
        &[],
        &[0x45],
    ),
    (
        Link::LinuxSll2,
        &[
            0x86, 0xdd, 0, 0, 0, 0, 0, 2, 0, 1, 0, 6, 2, 0, 0, 0, 0, 1, 0, 0, 0x60,
        ],
        Network::Ipv6,
        &[],
        &[0x60],
    ),
    (Link::Raw, &[0x45, 0x00], Network::Ipv4, &[], &[0x45, 0x00]),
    (Link::Raw, &[0x6f], Network::Ipv6, &[], &[0x6f]),
    (Link::Raw, &[0x00], Network::Other(0), &[], &[0x00]),
    // The family of IPv4, in either order, and those of IPv6.
    (Link::Null, &[2, 0, 0, 0, 0x45], Network::Ipv4, &[], &[0x45]),
    (Link::Null, &[0, 0, 0, 2, 0x45], Network::Ipv4, &[], &[0x45]),
    (
        Link::Null,
        &[30, 0, 0, 0, 0x60],
        Network::Ipv6,
        &[],
        &[0x60],
    ),
    (
        Link::Null,
        &[0, 0, 0, 24, 0x60],
        Network::Ipv6,
        &[],
        &[0x60],
    ),
    (
        Link::Null,
        &[10, 0, 0, 0, 0x60],
        Network::Ipv6,
        &[],
        &[0x60],
    ),
    (
        Link::Null,
        &[0, 0, 0, 28, 0x60],
        Network::Ipv6,
        &[],
        &[0x60],
    ),
    (
        Link::Null,
        &[7, 0, 0, 0, 0x60],
        Network::Other(7),
        &[],
        &[0x60],
    ),
    // PPP with and without an address, and with a protocol of one byte.
    (
        Link::Ppp,
        &[0xff, 0x03, 0x00, 0x21, 0x45],
        Network::Ipv4,
        &[],
        &[0x45],
    ),
    (Link::Ppp, &[0x00, 0x57, 0x60], Network::Ipv6, &[], &[0x60]),
    (Link::Ppp, &[0x21, 0x45], Network::Ipv4, &[], &[0x45]),
    (
        Link::Ppp,
        &[0xc0, 0x21, 0x01],
        Network::Other(0xc021),
        &[],
        &[0x01],
    ),
    (
        Link::PppEther,
        &[0x11, 0x00, 0x00, 0x07, 0x00, 0x03, 0x00, 0x21, 0x45],
        Network::Ipv4,
        &[],
        &[0x45],
    ),
];

// Compares a frame with a row.
fn check_frame(rt: &impl Abort, of: &[u8], frame: &Frame<'_>, row: &Row) {
    let &(_, _, network, vlans, payload) = row;
    same_of(rt, of, frame.network, network);
    same_of(rt, of, frame.payload, payload);
    same_of(rt, of, frame.vlans(), vlans.len());
    let mut tags = frame.vlan_tags();
    for &vlan in vlans {
        let number = tags.next().map(|tag| tag.number);
        same_of(rt, of, number, Some(vlan));
    }
    same_of(rt, of, tags.next(), None);
    for (i, &vlan) in vlans.iter().enumerate() {
        if i < frame.vlans() {
            same_of(rt, of, frame.vlan(i), vlan);
        }
    }
}

// Compares the frames in these rows with what they hold.
pub(super) fn check_frames(rt: &impl Abort, rows: &[Row]) {
    for row in rows {
        let &(link, octets, ..) = row;
        same_of(
            rt,
            octets,
            link.frame_or_refusal(octets).ok(),
            link.frame(octets).ok(),
        );
        match link.frame(octets) {
            Ok(frame) => check_frame(rt, octets, &frame, row),
            Err(_) => same_of(rt, octets, false, true),
        }
    }
}

#[test]
fn frames_of_each_link(rt: HostRuntime) {
    check_frames(&rt, ROWS);
}

// Without its payload a frame is whole, and with less it is refused.
#[test]
fn frames_that_are_cut_short(rt: HostRuntime) {
    for &(link, octets, _, _, payload) in ROWS {
        let whole = octets.len().saturating_sub(payload.len());
        let is_plain = matches!(
            link,
            Link::Ethernet | Link::LinuxSll | Link::LinuxSll2 | Link::Null
        );
        let is_session = octets.get(13) == Some(&0x64);
        for len in 0..octets.len() {
            let read = link.frame(&octets[..len]);
            if is_plain && !is_session {
                same_of(&rt, (octets, len), read.is_ok(), len >= whole);
            }
        }
    }
}

#[test]
fn link_types(rt: HostRuntime) {
    const TYPES: &[(u16, Option<Link>)] = &[
        (0, Some(Link::Null)),
        (1, Some(Link::Ethernet)),
        (2, None),
        (9, Some(Link::Ppp)),
        (12, Some(Link::Raw)),
        (14, Some(Link::Raw)),
        (50, Some(Link::Ppp)),
        (51, Some(Link::PppEther)),
        (101, Some(Link::Raw)),
        (104, Some(Link::CHdlc)),
        (105, None),
        (107, Some(Link::FrameRelay)),
        (108, Some(Link::Null)),
        (113, Some(Link::LinuxSll)),
        (226, Some(Link::Ipnet)),
        (228, Some(Link::Raw)),
        (229, Some(Link::Raw)),
        (239, Some(Link::Nflog)),
        (242, Some(Link::Ipoib)),
        (276, Some(Link::LinuxSll2)),
        (65535, None),
    ];
    for &(link_type, link) in TYPES {
        same_of(&rt, link_type, Link::of(link_type), link);
        let has_ether_types = link.is_some_and(Link::has_ether_types);
        let want = matches!(link_type, 1 | 104 | 113 | 242 | 276);
        same_of(&rt, link_type, has_ether_types, want);
    }
}

// A reason is told exactly where a frame is refused: of each front of a frame, and with each of its bytes changed.
pub(super) fn check_damaged(rt: &impl Abort, rows: &[Row]) {
    for &(link, octets, ..) in rows {
        for len in 0..=octets.len() {
            let front = &octets[..len];
            same_of(
                rt,
                (octets, len),
                link.refusal(front).is_none(),
                link.frame(front).is_ok(),
            );
        }
        let mut changed = [0; 96];
        if octets.len() <= 96 {
            changed[..octets.len()].copy_from_slice(octets);
            for place in 0..octets.len() {
                changed[place] ^= 0x55;
                let frame = &changed[..octets.len()];
                same_of(
                    rt,
                    (octets, place),
                    link.refusal(frame).is_none(),
                    link.frame(frame).is_ok(),
                );
                changed[place] ^= 0x55;
            }
        }
    }
}

#[test]
fn refusals_of_damaged_frames(rt: HostRuntime) {
    check_damaged(&rt, ROWS);
}

// A frame of a link, and why it is refused.
pub(super) type Refused = (Link, &'static [u8], Option<Refusal>);

// Compares the reasons for which these frames are refused.
pub(super) fn check_refusals(rt: &impl Abort, rows: &[Refused]) {
    for &(link, octets, refusal) in rows {
        same_of(rt, (link, octets), link.refusal(octets), refusal);
        same_of(
            rt,
            (link, octets),
            link.frame_or_refusal(octets).err(),
            refusal,
        );
    }
}

#[test]
fn refusals_of_frames(rt: HostRuntime) {
    const REFUSED: &[Refused] = &[
        (Link::Null, &[2, 0, 0], Some(Refusal::Short)),
        (Link::Raw, &[], Some(Refusal::Short)),
        (Link::Raw, &[0x45], None),
        (
            Link::Ethernet,
            &[2, 0, 0, 0, 0, 2, 2, 0, 0, 0, 0, 1, 8],
            Some(Refusal::Short),
        ),
        // The second tag of two has three bytes.
        (
            Link::Ethernet,
            &[
                2, 0, 0, 0, 0, 2, 2, 0, 0, 0, 0, 1, 0x88, 0xa8, 0, 100, 0x81, 0, 0, 1, 8,
            ],
            Some(Refusal::Tag),
        ),
        // A session of PPPoE with one byte of an even protocol.
        (
            Link::LinuxSll,
            &[
                0, 0, 0, 1, 0, 6, 2, 0, 0, 0, 0, 1, 0, 0, 0x88, 0x64, 0x11, 0, 0, 7, 0, 1, 0,
            ],
            Some(Refusal::Protocol),
        ),
        (Link::LinuxSll2, &[0x86, 0xdd, 0], Some(Refusal::Short)),
        (Link::Ppp, &[0xff, 0x03], Some(Refusal::Protocol)),
        (Link::Ppp, &[], Some(Refusal::Protocol)),
        (Link::Ppp, &[0x21], None),
        (Link::PppEther, &[0x11, 0, 0, 7, 0], Some(Refusal::Short)),
        (
            Link::PppEther,
            &[0x21, 0, 0, 7, 0, 0],
            Some(Refusal::SessionVersion(2)),
        ),
        (
            Link::PppEther,
            &[0x13, 0, 0, 7, 0, 0],
            Some(Refusal::SessionType(3)),
        ),
        (
            Link::PppEther,
            &[0x11, 0xa7, 0, 7, 0, 0],
            Some(Refusal::SessionCode(0xa7)),
        ),
        (
            Link::PppEther,
            &[0x11, 0, 0, 7, 0, 0],
            Some(Refusal::Protocol),
        ),
    ];
    check_refusals(&rt, REFUSED);
}

#[test]
fn headers_of_ethernet(rt: HostRuntime) {
    const OCTETS: &[u8] = &[
        0x33, 0x33, 0, 0, 0, 0x16, 0x02, 0, 0x5e, 0x10, 0, 1, 0x81, 0x00, 0x00,
    ];
    let header = EthernetHeader {
        destination: EthernetAddress([0x33, 0x33, 0, 0, 0, 0x16]),
        source: EthernetAddress([0x02, 0, 0x5e, 0x10, 0, 1]),
        kind: 0x8100,
    };
    // The tag behind the header may be cut.
    same_of(&rt, 15, Link::Ethernet.ethernet(OCTETS), Some(header));
    same_of(
        &rt,
        14,
        Link::Ethernet.ethernet(&OCTETS[..14]),
        Some(header),
    );
    same_of(&rt, 13, Link::Ethernet.ethernet(&OCTETS[..13]), None);
    same_of(&rt, 0, Link::LinuxSll.ethernet(OCTETS), None);
}

#[test]
fn tags_by_their_bits(rt: HostRuntime) {
    let rows = [
        (0xe0, 0x00, 7, false, 0),
        (0x1f, 0xff, 0, true, 4_095),
        (0x61, 0x02, 3, false, 258),
        (0x90, 0x01, 4, true, 1),
    ];
    for (high, low, priority, drop_eligible, number) in rows {
        let octets = [
            2, 0, 0, 0, 0, 2, 2, 0, 0, 0, 0, 1, 0x81, 0x00, high, low, 0x08, 0x00, 0x45,
        ];
        let tag = VlanTag {
            priority,
            drop_eligible,
            number,
        };
        match Link::Ethernet.frame(&octets) {
            Ok(frame) => {
                let mut tags = frame.vlan_tags();
                same_of(&rt, (high, low), tags.next(), Some(tag));
                same_of(&rt, (high, low), tags.next(), None);
                same_of(&rt, (high, low), tags.next(), None);
            }
            Err(_) => same_of(&rt, (high, low), false, true),
        }
    }
}
