//! The texts of records and questions, with their names read: of multicast DNS and of OPT, and which are equal.

use crate::testing::{prints, same, same_of, takes_writes};
use dns_wire::dns::{Packet, Type};
use record_wire::name::refusal::NameRefusal;
use record_wire::rdata::RData;
use record_wire::record::{Question, Record};
use record_wire::refusal::PartRefusal;
use record_wire::text::refusal::TextRefusal;
use record_wire::text::{DataText, QuestionText, RecordText};
use record_wire::types;
use std::alloc::Global;
use std::process::Abort;
use std::result;

// The message of the records: after its header the name `example.com` at 12, and `.com` at 20.
pub(super) const MESSAGE: &[u8] = b"\0\0\x84\0\0\0\0\0\0\0\0\0\x07example\x03com\0";

// A pointer to the first of these.
pub(super) const EXAMPLE: &[u8] = b"\xc0\x0c";

pub(super) fn record<'a>(name: &'a [u8], type_: Type, class: u16, data: &'a [u8]) -> Record<'a> {
    Record {
        name,
        type_,
        class,
        ttl: 3600,
        data,
    }
}

// Ends the test unless the record has a text, which is this line.
pub(super) fn check(
    rt: &impl Abort,
    alloc: Global,
    read: result::Result<RecordText<'_>, TextRefusal>,
    line: &str,
) {
    match read {
        Ok(read) => prints(rt, alloc, &read, line),
        Err(refusal) => same_of(rt, line, Some(refusal), None),
    }
}

#[test]
fn lines_of_multicast_dns(rt: HostRuntime) {
    let alloc = rt.alloc();
    let packet = Packet::new_unchecked(MESSAGE);
    let address = b"\xc0\0\x02\x01";
    let rows: [(Type, u16, &[u8], &str); 5] = [
        (
            types::NSEC,
            0x8001,
            b"\xc0\x0c\0\x05\x40\0\x80\x08\x40",
            ". 3600 IN NSEC example.com. A TXT AAAA SRV",
        ),
        (types::A, 0x8001, address, ". 3600 IN A 192.0.2.1"),
        (types::A, 1, address, ". 3600 IN A 192.0.2.1"),
        (types::MX, 0x80ff, b"", ". 3600 ANY MX \\# 0"),
        (
            types::OPT,
            0x9000,
            b"",
            "; EDNS: version: 0, flags: 3600; udp: 36864; extended_rcode: 0",
        ),
    ];
    for (type_, class, octets, text) in rows {
        let read = record(b"\0", type_, class, octets).multicast_text(&packet);
        check(&rt, alloc, read, text);
    }
    let flagged = record(b"\0", types::A, 0x8001, address).text(&packet);
    check(&rt, alloc, flagged, ". 3600 CLASS32769 A \\# 4 c0000201");
}

#[test]
fn lines_of_opt(rt: HostRuntime) {
    let alloc = rt.alloc();
    let packet = Packet::new_unchecked(MESSAGE);
    // A time to live has the upper bits of the response code, the version and the flags.
    let rows: [(u32, &[u8], &str); 5] = [
        (
            0x8000,
            b"",
            "; EDNS: version: 0, flags: do; udp: 1232; extended_rcode: 0",
        ),
        (
            0x0102_8001,
            b"\0\x03\0\0",
            "; EDNS: version: 2, flags: 32769; udp: 1232; extended_rcode: 1; nsid=",
        ),
        (
            0,
            b"\0\x0a\0\x02\x01\x23\xff\xff\0\x01\x2a",
            "; EDNS: version: 0, flags: 0; udp: 1232; extended_rcode: 0; cookie=0123; option-65535=2a",
        ),
        (
            0x8000,
            b"\0\x0a\0\x02\x01\x23\0\x03\0\x01",
            "; EDNS: version: 0, flags: do; udp: 1232; extended_rcode: 0; cookie=0123; \
            the data of the option is cut",
        ),
        (
            0x8000,
            b"\0\x0a",
            "; EDNS: version: 0, flags: do; udp: 1232; extended_rcode: 0; \
            the code and the length are cut",
        ),
    ];
    for (ttl, octets, text) in rows {
        let opt = Record {
            ttl,
            ..record(b"\0", types::OPT, 1232, octets)
        };
        check(&rt, alloc, opt.text(&packet), text);
    }
}

// The record of a mail server of this name and data, with its names read.
fn mail<'a>(rt: &impl Abort, name: &'a [u8], data: &'a [u8]) -> RecordText<'a> {
    let packet = Packet::new_unchecked(MESSAGE);
    let Ok(read) = record(name, types::MX, 1, data).text(&packet) else {
        panic!(rt; "no text");
    };
    read
}

#[test]
fn records_that_are_equal(rt: HostRuntime) {
    let small = mail(&rt, EXAMPLE, b"\0\x0a\x04mail\xc0\x0c");
    let capital = mail(&rt, b"\x07EXAMPLE\xc0\x14", b"\0\x0a\x04MAIL\xc0\x0c");
    let other = mail(&rt, EXAMPLE, b"\0\x0a\x04post\xc0\x0c");
    same(&rt, small == capital, true);
    same(&rt, small == other, false);
    let Ok(copy) = small.clone() else {
        panic!(rt; "no copy");
    };
    same(&rt, copy == small, true);
}

// The record of this type and these data, with its names read.
fn text_of<'a>(rt: &impl Abort, type_: Type, data: &'a [u8]) -> RecordText<'a> {
    let packet = Packet::new_unchecked(MESSAGE);
    let Ok(read) = record(EXAMPLE, type_, 1, data).text(&packet) else {
        panic!(rt; "no text");
    };
    read
}

#[test]
fn fields_that_are_equal(rt: HostRuntime) {
    let small = text_of(&rt, types::PX, b"\0\x0a\x01a\xc0\x0c\x01b\xc0\x0c");
    let capital = text_of(&rt, types::PX, b"\0\x0a\x01A\xc0\x0c\x01B\xc0\x0c");
    let number = text_of(&rt, types::PX, b"\0\x0b\x01a\xc0\x0c\x01b\xc0\x0c");
    let second = text_of(&rt, types::PX, b"\0\x0a\x01a\xc0\x0c\x01c\xc0\x0c");
    same(&rt, small == capital, true);
    same(&rt, small == number, false);
    same(&rt, small == second, false);
    let kinds = text_of(&rt, types::NSEC, b"\xc0\x0c\0\x01\x40");
    let others = text_of(&rt, types::NSEC, b"\xc0\x0c\0\x01\x20");
    same(&rt, kinds == others, false);
    let Ok(copy) = small.clone() else {
        panic!(rt; "no copy");
    };
    same(&rt, copy == small, true);
}

#[test]
fn strings_that_are_not_whole_are_left_out(rt: HostRuntime) {
    let alloc = rt.alloc();
    prints(&rt, alloc, &DataText::Txt(b""), "");
    prints(&rt, alloc, &DataText::Txt(b"\x01a\x02b"), "\"a\"");
}

#[test]
fn no_write_fails_unseen(rt: HostRuntime) {
    let packet = Packet::new_unchecked(MESSAGE);
    let data = RData::Txt(b"\x01a\x01\"");
    if let Ok(read) = data.text(&packet) {
        takes_writes(&rt, &read, 3);
    }
}

// Ends the test unless the question has a text, which is this line.
fn check_question(
    rt: &impl Abort,
    alloc: Global,
    read: result::Result<QuestionText, NameRefusal>,
    line: &str,
) {
    match read {
        Ok(read) => prints(rt, alloc, &read, line),
        Err(refusal) => same_of(rt, line, Some(refusal), None),
    }
}

#[test]
fn questions_with_their_names_read(rt: HostRuntime) {
    let alloc = rt.alloc();
    let packet = Packet::new_unchecked(MESSAGE);
    let rows: [(&[u8], Type, u16, &str, &str); 3] = [
        (
            EXAMPLE,
            types::MX,
            1,
            "example.com. IN MX",
            "example.com. IN MX",
        ),
        (
            b"\x03www\xc0\x0c",
            types::ANY,
            255,
            "www.example.com. ANY ANY",
            "www.example.com. ANY ANY",
        ),
        (b"\0", types::A, 0x8001, ". CLASS32769 A", ". IN A"),
    ];
    for (name, type_, class, text, multicast_text) in rows {
        let question = Question { name, type_, class };
        check_question(&rt, alloc, question.text(&packet), text);
        check_question(&rt, alloc, question.multicast_text(&packet), multicast_text);
    }
    let cut = Question {
        name: b"\x01",
        type_: types::A,
        class: 1,
    };
    match cut.text(&packet) {
        Ok(_) => same(&rt, "a text", "a refusal"),
        Err(refusal) => same(&rt, refusal, NameRefusal::Part(PartRefusal::Cut)),
    }
}
