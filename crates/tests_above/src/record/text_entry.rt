//! What entries of messages print, multicast or not, and which are refused.

use crate::testing::{prints, same_of, takes_writes};
use dns_wire::dns::{Packet, Type};
use record_wire::entries::{Entry, Section};
use record_wire::name::refusal::NameRefusal;
use record_wire::rdata::refusal::DataRefusal;
use record_wire::record::{Question, Record};
use record_wire::text::EntryText;
use record_wire::text::refusal::TextRefusal;
use record_wire::types;
use std::alloc::Global;
use std::process::Abort;

// The message of the entries: after its header the name `example.com` at 12.
const MESSAGE: &[u8] = b"\0\0\x84\0\0\0\0\0\0\0\0\0\x07example\x03com\0";

const EXAMPLE: &[u8] = b"\xc0\x0c";

const ADDRESS: &[u8] = b"\xc0\0\x02\x01";

fn question<'a>(name: &'a [u8], class: u16) -> Entry<'a> {
    Entry::Question(Question {
        name,
        type_: types::A,
        class,
    })
}

fn record<'a>(section: Section, type_: Type, class: u16, data: &'a [u8]) -> Entry<'a> {
    let record = Record {
        name: EXAMPLE,
        type_,
        class,
        ttl: 300,
        data,
    };
    Entry::Record(section, record)
}

// Ends the test unless the entry prints this line, in a message of multicast DNS or of another.
fn check(rt: &impl Abort, alloc: Global, entry: &Entry<'_>, is_multicast: bool, line: &str) {
    let packet = Packet::new_unchecked(MESSAGE);
    match entry.text(&packet, is_multicast) {
        Ok(text) => prints(rt, alloc, &text, line),
        Err(refusal) => same_of(rt, line, Some(refusal), None),
    }
}

#[test]
fn lines_of_entries(rt: HostRuntime) {
    let alloc = rt.alloc();
    let rows = [
        (
            question(EXAMPLE, 1),
            "question example.com. IN A",
            "question example.com. IN A",
        ),
        (
            question(EXAMPLE, 0x8001),
            "question example.com. CLASS32769 A",
            "question example.com. IN A ; unicast-response",
        ),
        (
            record(Section::Answer, types::A, 1, ADDRESS),
            "answer example.com. 300 IN A 192.0.2.1",
            "answer example.com. 300 IN A 192.0.2.1",
        ),
        (
            record(Section::Authority, types::NS, 1, EXAMPLE),
            "authority example.com. 300 IN NS example.com.",
            "authority example.com. 300 IN NS example.com.",
        ),
        (
            record(Section::Additional, types::A, 0x8001, ADDRESS),
            "additional example.com. 300 CLASS32769 A \\# 4 c0000201",
            "additional example.com. 300 IN A 192.0.2.1 ; cache-flush",
        ),
        // The payload size of an OPT record, which has no flag.
        (
            record(Section::Additional, types::OPT, 0x9000, b""),
            "additional ; EDNS: version: 0, flags: 300; udp: 36864; extended_rcode: 0",
            "additional ; EDNS: version: 0, flags: 300; udp: 36864; extended_rcode: 0",
        ),
    ];
    for (entry, line, multicast_line) in rows {
        check(&rt, alloc, &entry, false, line);
        check(&rt, alloc, &entry, true, multicast_line);
    }
}

#[test]
fn entries_that_are_refused(rt: HostRuntime) {
    const AHEAD: NameRefusal = NameRefusal::Pointer(255);
    let packet = Packet::new_unchecked(MESSAGE);
    // Four bytes are an address of the internet, three none; of a class that is not known any bytes are data.
    let cut = record(Section::Answer, types::A, 0x8001, &ADDRESS[..3]);
    let rows = [
        (
            question(b"\xc0\xff", 1),
            Some(TextRefusal::Owner(AHEAD)),
            Some(TextRefusal::Owner(AHEAD)),
        ),
        (
            record(Section::Answer, types::NS, 1, b"\xc0\xff"),
            Some(TextRefusal::DataName(AHEAD)),
            Some(TextRefusal::DataName(AHEAD)),
        ),
        (cut, None, Some(TextRefusal::Data(DataRefusal::Address(4)))),
    ];
    for (entry, refusal, multicast_refusal) in rows {
        same_of(&rt, entry, entry.text(&packet, false).err(), refusal);
        same_of(
            &rt,
            entry,
            entry.text(&packet, true).err(),
            multicast_refusal,
        );
    }
}

// The text of an entry of multicast DNS.
fn read<'a>(rt: &impl Abort, entry: &Entry<'a>) -> EntryText<'a> {
    let packet = Packet::new_unchecked(MESSAGE);
    let Ok(text) = entry.text(&packet, true) else {
        panic!(rt; "no text");
    };
    text
}

#[test]
fn entries_that_are_equal(rt: HostRuntime) {
    let plain = question(EXAMPLE, 1);
    let capital = question(b"\x07EXAMPLE\x03com\0", 1);
    let flagged = question(EXAMPLE, 0x8001);
    let answer = record(Section::Answer, types::A, 1, ADDRESS);
    let other = record(Section::Additional, types::A, 1, ADDRESS);
    let rows = [
        (plain, capital, true),
        (plain, flagged, false),
        (plain, answer, false),
        (answer, answer, true),
        (answer, other, false),
    ];
    for (left, right, are_equal) in rows {
        let is_same = read(&rt, &left) == read(&rt, &right);
        same_of(&rt, (left, right), is_same, are_equal);
    }
    let Ok(copy) = read(&rt, &flagged).clone() else {
        panic!(rt; "no copy");
    };
    same_of(&rt, flagged, copy == read(&rt, &flagged), true);
}

#[test]
fn no_write_of_an_entry_fails_unseen(rt: HostRuntime) {
    takes_writes(&rt, &read(&rt, &question(b"\0", 0x8001)), 7);
    let flagged = record(Section::Answer, types::A, 0x8001, ADDRESS);
    takes_writes(&rt, &read(&rt, &flagged), 12);
}
