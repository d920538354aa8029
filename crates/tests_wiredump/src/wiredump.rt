//! What lines print, word by word: of each packet the text that the manual has for it. `rust/compare` takes the packets
//! from these tests, and compares what is printed of them, cut and changed, with a plain printer in Python.

mod dhcp;
mod dns;
mod faults;
mod icmp4;
mod icmp6;
mod lines;
mod live;
mod ndisc;
mod options;
mod words;

use crate::testing::{holds_of, same_of};
use dump_lines::run;
use std::alloc::Global;
use std::fmt::Debug;
use std::process::Abort;

// Puts a text behind another so often. Ends the test where there is no memory for it.
fn append(rt: &impl Abort, text: &mut String, part: &str, count: usize) {
    for _ in 0..count {
        holds_of(rt, part, text.push_str(part).is_ok());
    }
}

fn joined(rt: &impl Abort, alloc: Global, parts: &[&str]) -> String {
    let mut text = String::new(alloc);
    for part in parts {
        append(rt, &mut text, part, 1);
    }
    text
}

// A text that is made of others, each so often.
fn repeated(rt: &impl Abort, alloc: Global, parts: &[(&str, usize)]) -> String {
    let mut text = String::new(alloc);
    for &(part, count) in parts {
        append(rt, &mut text, part, count);
    }
    text
}

// Each packet behind these words is known, and prints this.
fn check(rt: &impl Abort, alloc: Global, words: &str, rows: &[(&str, &str)]) {
    for (packet, want) in rows {
        check_packet(rt, alloc, words, packet, want);
    }
}

// A packet behind these words is known, and prints this.
fn check_packet(rt: &impl Abort, alloc: Global, words: &str, packet: &str, want: &str) {
    let line = joined(rt, alloc, &[words, " ", packet]);
    check_line(rt, alloc, line.as_str(), want);
}

// `check` of headers with data after each: they print this, and then what is printed of the data.
fn check_with_data(
    rt: &impl Abort,
    alloc: Global,
    words: &str,
    rows: &[(&str, &str)],
    data: &str,
    printed: &str,
) {
    for (header, want) in rows {
        let line = joined(rt, alloc, &[words, " ", header, data]);
        let want = joined(rt, alloc, &[want, printed]);
        check_line(rt, alloc, line.as_str(), want.as_str());
    }
}

// Each line is known, and prints this.
fn check_lines(rt: &impl Abort, alloc: Global, rows: &[(&str, &str)]) {
    for (line, want) in rows {
        check_line(rt, alloc, line, want);
    }
}

// A line is known, and prints this.
fn check_line(rt: &impl Abort, alloc: Global, line: &str, want: &str) {
    check_input(rt, alloc, &line, line.as_bytes(), true, want.as_bytes());
}

// An input prints this, and each of its lines is known, or one of them is not.
fn check_input(
    rt: &impl Abort,
    alloc: Global,
    of: &impl Debug,
    input: &[u8],
    is_known: bool,
    want: &[u8],
) {
    let mut output = Vec::new(alloc);
    let answer = run(alloc, input, &mut output);
    same_of(rt, of, answer, Ok(is_known));
    same_of(rt, of, output.as_slice(), want);
}
