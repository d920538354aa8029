//! The times of queries and the versions of messages.

use crate::testing::same_of;
use group_wire::{Membership, Message, Query, Sources};
use wirebase::{Duration, Ipv4Address, Ipv6Address};

// A query of version 3 with these codes.
fn query_of(max_resp_code: u16, qqic: u8) -> Query<'static, Ipv4Address> {
    Query {
        max_resp_code,
        group: Ipv4Address::UNSPECIFIED,
        s_flag: false,
        qrv: 2,
        qqic,
        sources: Sources::none(),
    }
}

// Ten seconds of version 1 (RFC 2236 section 4), tenths of a second of version 2, and those with an exponent of version
// 3 (RFC 3376 section 4.1.1).
#[test]
fn times_of_igmp(rt: HostRuntime) {
    for (code, millis, version) in [
        (0, 10_000, 1),
        (1, 100, 2),
        (100, 10_000, 2),
        (200, 20_000, 2),
        (255, 25_500, 2),
        (256, 10_000, 1),
        (257, 100, 2),
    ] {
        let query: Membership<'_, Ipv4Address> = Message::OlderQuery {
            max_resp_code: code,
            group: Ipv4Address::UNSPECIFIED,
        };
        same_of(
            &rt,
            code,
            query.max_resp_time(),
            Some(Duration::from_millis(millis)),
        );
        same_of(&rt, code, query.version(), version);
    }
    for (code, millis) in [
        (0, 0),
        (127, 12_700),
        (128, 12_800),
        (0x89, 20_000),
        (200, 307_200),
        (255, 3_174_400),
    ] {
        let query: Membership<'_, Ipv4Address> = Message::Query(query_of(code, 0));
        same_of(
            &rt,
            code,
            query.max_resp_time(),
            Some(Duration::from_millis(millis)),
        );
    }
    for (code, secs) in [(0, 0), (125, 125), (0x89, 200), (255, 31_744)] {
        same_of(
            &rt,
            code,
            query_of(0, code).interval(),
            Duration::from_secs(secs),
        );
    }
}

// Milliseconds of version 1 (RFC 2710 section 3.4), and those with an exponent of version 2 (RFC 3810 section 5.1.3).
#[test]
fn times_of_mld(rt: HostRuntime) {
    let group = Ipv6Address::UNSPECIFIED;
    for code in [0, 1, 10_000, 65_535] {
        let query: Membership<'_, Ipv6Address> = Message::OlderQuery {
            max_resp_code: code,
            group,
        };
        same_of(
            &rt,
            code,
            query.max_resp_time(),
            Some(Duration::from_millis(code as u64)),
        );
    }
    for (code, millis) in [(10_000, 10_000), (0x8000, 32_768), (0xffff, 8_387_584)] {
        let query: Membership<'_, Ipv6Address> = Message::Query(Query {
            max_resp_code: code,
            group,
            s_flag: false,
            qrv: 2,
            qqic: 125,
            sources: Sources::none(),
        });
        same_of(
            &rt,
            code,
            query.max_resp_time(),
            Some(Duration::from_millis(millis)),
        );
    }
    let leave: Membership<'_, Ipv6Address> = Message::Leave { group };
    same_of(&rt, "leave", leave.max_resp_time(), None);
}
