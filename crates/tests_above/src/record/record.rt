//! What questions and records print, and those of multicast DNS.

use crate::testing::{prints, same_of};
use dns_wire::dns::Type;
use record_wire::multicast::{class_of, has_top_bit};
use record_wire::rdata::RData;
use record_wire::record::{Question, Record};
use std::process::Abort;
use wirebase::{Ipv4Address, Result};

// The octets of a question of multicast DNS for the address of `pc.local`, but for its class.
const NAME: &[u8] = b"\x02pc\x05local\0";

// Ends the test unless a question of this class is of the class without the bit, and wants a unicast answer or not.
fn check_question(rt: &impl Abort, class: u16, without: u16, unicast: bool) {
    let question = Question {
        name: NAME,
        type_: Type::A,
        class,
    };
    same_of(rt, class, question.multicast_class(), without);
    same_of(rt, class, question.wants_unicast(), unicast);
    same_of(rt, class, class_of(class), without);
    same_of(rt, class, has_top_bit(class), unicast);
}

#[test]
fn questions_of_multicast_dns(rt: HostRuntime) {
    const ROWS: [(u16, u16, bool); 4] = [
        (1, 1, false),
        (0x8001, 1, true),
        (0x7fff, 0x7fff, false),
        (0x80ff, 255, true),
    ];
    for (class, without, unicast) in ROWS {
        check_question(&rt, class, without, unicast);
    }
}

// Ends the test unless the record has this class without the bit, flushes caches or not, and has this data in multicast
// DNS.
fn check_record(
    rt: &impl Abort,
    record: Record<'_>,
    without: u16,
    flushes: bool,
    data: Result<RData<'_>>,
) {
    same_of(rt, record, record.multicast_class(), without);
    same_of(rt, record, record.flushes_cache(), flushes);
    same_of(rt, record, record.multicast_rdata(), data);
    same_of(
        rt,
        record,
        RData::parse_multicast(record.type_, record.class, record.data),
        data,
    );
}

#[test]
fn records_of_multicast_dns(rt: HostRuntime) {
    let address = RData::A(Ipv4Address::new(10, 1, 0, 52));
    let octets = [10, 1, 0, 52];
    let shared = Record {
        name: NAME,
        type_: Type::A,
        class: 1,
        ttl: 120,
        data: &octets,
    };
    check_record(&rt, shared, 1, false, Ok(address));
    same_of(&rt, "by its class", shared.rdata(), Ok(address));
    let unique = Record {
        class: 0x8001,
        ..shared
    };
    check_record(&rt, unique, 1, true, Ok(address));
    same_of(
        &rt,
        "by its raw class",
        unique.rdata(),
        Ok(RData::Other(&octets)),
    );
    // An OPT record of a sender that takes payloads of 32,769 bytes.
    let options = Record {
        name: &[0],
        type_: Type::Unknown(41),
        class: 0x8001,
        ttl: 0,
        data: &[],
    };
    check_record(&rt, options, 0x8001, false, Ok(RData::Other(&[])));
}

#[test]
fn texts_of_questions_and_records(rt: HostRuntime) {
    let question = Question {
        name: NAME,
        type_: Type::Unknown(12),
        class: 1,
    };
    prints(
        &rt,
        rt.alloc(),
        &question,
        "question name_len=10 type=PTR class=IN",
    );
    let record = Record {
        name: NAME,
        type_: Type::Unknown(9999),
        class: 0x8001,
        ttl: 120,
        data: &[1, 2, 3],
    };
    prints(
        &rt,
        rt.alloc(),
        &record,
        "record name_len=10 type=TYPE9999 class=CLASS32769 ttl=120 len=3",
    );
}
