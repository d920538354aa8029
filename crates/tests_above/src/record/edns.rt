//! OPT records and their options.

use crate::testing::{prints, same_of};
use dns_wire::dns::Type;
use record_wire::edns::{Edns, EdnsOption, EdnsOptions, OptionRefusal};
use record_wire::record::Record;
use std::process::Abort;
use std::result;

// Ends the test unless these octets have these options and no more.
fn check(
    rt: &impl Abort,
    octets: &[u8],
    options: &[result::Result<EdnsOption<'_>, OptionRefusal>],
) {
    let mut left = EdnsOptions::new(octets);
    for &option in options {
        same_of(rt, octets, left.next(), Some(option));
    }
    for _ in 0..2 {
        same_of(rt, octets, left.next(), None);
    }
}

#[test]
fn options_of_opt_data(rt: HostRuntime) {
    // A client's cookie of 8 bytes (RFC 7873 section 4), and padding of no bytes (RFC 7830).
    let octets = b"\x00\x0a\x00\x08ABCDEFGH\x00\x0c\x00\x00";
    let cookie = EdnsOption {
        code: 10,
        data: b"ABCDEFGH",
    };
    prints(&rt, rt.alloc(), &cookie, "cookie=4142434445464748");
    let padding = EdnsOption {
        code: 12,
        data: b"",
    };
    check(&rt, octets, &[Ok(cookie), Ok(padding)]);
    check(
        &rt,
        &octets[..15],
        &[Ok(cookie), Err(OptionRefusal::Fields)],
    );
    check(&rt, &octets[..12], &[Ok(cookie)]);
    check(&rt, &octets[..11], &[Err(OptionRefusal::Data)]);
    check(&rt, &octets[..3], &[Err(OptionRefusal::Fields)]);
    check(&rt, b"", &[]);
}

// An OPT record of this payload size, with these octets in the place of a time to live, and no options.
fn opt_record(class: u16, ttl: u32) -> Record<'static> {
    Record {
        name: &[0],
        type_: Type::Unknown(41),
        class,
        ttl,
        data: &[],
    }
}

#[test]
fn what_opt_records_say(rt: HostRuntime) {
    // A response of BADVERS, which is 16 (RFC 6891 section 9), of a server that takes DNSSEC.
    let record = opt_record(1232, 0x0100_8000);
    let edns = Edns {
        payload_size: 1232,
        extended_rcode: 1,
        version: 0,
        dnssec_ok: true,
        flags: 0x8000,
        options: &[],
    };
    same_of(&rt, record, record.edns(), Some(edns));
    same_of(&rt, record, edns.rcode(0), 16);
    prints(
        &rt,
        rt.alloc(),
        &edns,
        "EDNS payload_size=1232 extended_rcode=1 version=0 dnssec_ok=true flags=32768 len=0",
    );
    // These fields with other bits set in each.
    let other = opt_record(512, 0xff02_7fff);
    let says = Edns {
        payload_size: 512,
        extended_rcode: 255,
        version: 2,
        dnssec_ok: false,
        flags: 0x7fff,
        options: &[],
    };
    same_of(&rt, other, other.edns(), Some(says));
    for (header_rcode, rcode) in [(0, 4080), (15, 4095), (0x35, 4085)] {
        same_of(&rt, header_rcode, says.rcode(header_rcode), rcode);
    }
    let text = Record {
        type_: Type::Unknown(16),
        ..record
    };
    same_of(&rt, text, text.edns(), None);
}

#[test]
fn options_of_an_opt_record(rt: HostRuntime) {
    let record = Record {
        data: b"\x00\x0c\x00\x00\x00",
        ..opt_record(4096, 0)
    };
    let padding = EdnsOption {
        code: 12,
        data: b"",
    };
    let Some(edns) = record.edns() else {
        panic!(rt; "no OPT record");
    };
    let mut options = edns.options();
    same_of(&rt, record, options.next(), Some(Ok(padding)));
    same_of(
        &rt,
        record,
        options.next(),
        Some(Err(OptionRefusal::Fields)),
    );
    same_of(&rt, record, options.next(), None);
}

#[test]
fn why_an_option_is_refused(rt: HostRuntime) {
    const ROWS: &[(&[u8], Option<OptionRefusal>)] = &[
        (b"", Some(OptionRefusal::Fields)),
        (b"\0\x0c\0", Some(OptionRefusal::Fields)),
        (b"\0\x0c\0\0", None),
        (b"\0\x0a\0\x02A", Some(OptionRefusal::Data)),
        (b"\0\x0a\0\x02ABC", None),
    ];
    for &(octets, refusal) in ROWS {
        same_of(&rt, octets, EdnsOption::refusal(octets), refusal);
        same_of(
            &rt,
            octets,
            EdnsOption::parse(octets).is_ok(),
            refusal.is_none(),
        );
    }
    let option = EdnsOption {
        code: 10,
        data: b"AB",
    };
    let read: (&[u8], EdnsOption<'_>) = (b"C", option);
    same_of(
        &rt,
        "a rest",
        EdnsOption::parse(b"\0\x0a\0\x02ABC"),
        Ok(read),
    );
    prints(
        &rt,
        rt.alloc(),
        &OptionRefusal::Fields,
        "the code and the length are cut",
    );
    prints(
        &rt,
        rt.alloc(),
        &OptionRefusal::Data,
        "the data of the option is cut",
    );
}
