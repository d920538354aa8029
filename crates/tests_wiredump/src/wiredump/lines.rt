//! Lines of every shape, and at the limits of what a line may have.

use super::{append, check_input, check_line, joined, repeated};
use crate::testing::{holds_of, same_of};
use dump_lines::words::read_word;
use std::alloc::Global;
use std::fmt::Write;
use std::process::Abort;

// Each input prints this; its lines are known, or one of them is not.
fn check_inputs(rt: &impl Abort, alloc: Global, rows: &[(&str, &str, bool)]) {
    for (input, want, known) in rows {
        check_input(rt, alloc, input, input.as_bytes(), *known, want.as_bytes());
    }
}

#[test]
fn lines_of_every_shape(rt: HostRuntime) {
    const ROWS: &[(&str, &str, bool)] = &[
        // Without a word.
        ("", "", true),
        ("\n\n", "", true),
        ("  \n\r\n \r\n\r", "", true),
        // Ends and spaces.
        ("hbh 0100\nhbh 00\n", "PadN=0\nPad1\n", true),
        ("hbh 0100\nhbh 00", "PadN=0\nPad1\n", true),
        ("hbh 0100\r\nhbh 00\r", "PadN=0\nPad1\n", true),
        ("  hbh   0100  \r\n", "PadN=0\n", true),
        ("hbh 0100\r\r\nhbh 00\r\r", "bad line\nbad line\n", false),
        ("\r\r\n\rhbh 00\n", "bad line\nbad line\n", false),
        ("hbh 0100\r \n", "bad line\n", false),
        ("hbh\t0100\n\thbh 00\n", "bad line\nbad line\n", false),
        ("hbh 01\0\nhbh\x0b00\n", "bad line\nbad line\n", false),
        // A bad line among others, and a refused one.
        ("hbh 00\nhbh\nhbh 00\n", "Pad1\nbad line\nPad1\n", false),
        ("hbh 00\nhbh -\nhbh 00\n", "Pad1\nrefused\nPad1\n", true),
    ];
    check_inputs(&rt, rt.alloc(), ROWS);
}

#[test]
fn lines_with_a_wrong_word(rt: HostRuntime) {
    const ROWS: &[(&str, &str, bool)] = &[
        // Words that are no packet.
        ("hbh 5\nhbh 010\n", "bad line\nbad line\n", false),
        ("hbh 0g\nhbh 0x00\n", "bad line\nbad line\n", false),
        ("hbh --\nhbh -0\n", "bad line\nbad line\n", false),
        // Commands that are none.
        ("foo -\nhbh\n-\n", "bad line\nbad line\nbad line\n", false),
        (
            "HBH 00\nhbhh 00\n00\n",
            "bad line\nbad line\nbad line\n",
            false,
        ),
        ("hbh - -\nhbh 00 00\n", "bad line\nbad line\n", false),
        ("hbh 0 0 0 00\n1 2 3 4 5 6\n", "bad line\nbad line\n", false),
    ];
    check_inputs(&rt, rt.alloc(), ROWS);
}

#[test]
fn lines_with_a_wrong_offset_or_address(rt: HostRuntime) {
    const ROWS: &[(&str, &str, bool)] = &[
        // Offsets and addresses that are none, and an offset past its message.
        ("name 00\nname 0 0 00\n", "bad line\nbad line\n", false),
        (
            "name x 00\nname -1 00\nname +1 00\n",
            "bad line\nbad line\nbad line\n",
            false,
        ),
        (
            "name 3 0000\nname 1 -\nname 65536 -\n",
            "bad line\nbad line\nbad line\n",
            false,
        ),
        (
            "name 0 5\nquestion 0 00\nname 1 00\n",
            "bad line\nbad line\nerror steps=0\n",
            false,
        ),
        (
            "icmp6 00\nicmp6 0 0 00\nicmp6 - - 00\n",
            "bad line\nbad line\nbad line\n",
            false,
        ),
        (
            "icmp6 fe80000000000000000000000000000 fe800000000000000000000000000002 00\n",
            "bad line\n",
            false,
        ),
        (
            "icmp6 fe800000000000000000000000000001 fe80000000000000000000000000000g 00\n",
            "bad line\n",
            false,
        ),
        (
            "icmp6 fe800000000000000000000000000001 fe800000000000000000000000000002 0\n",
            "bad line\n",
            false,
        ),
    ];
    check_inputs(&rt, rt.alloc(), ROWS);
}

#[test]
fn lines_that_are_no_text(rt: HostRuntime) {
    const INPUTS: &[&[u8]] = &[
        b"hbh \xff\n",
        b"\xc3\x28 00\n",
        b"hbh 00\xa0\n",
        b"\xef\xbb\xbfhbh 00\n",
    ];
    for &input in INPUTS {
        check_input(&rt, rt.alloc(), &input, input, false, b"bad line\n");
    }
}

// A word of so many digits is so many octets, or none, and a line of it prints this.
fn check_digits(rt: &impl Abort, alloc: Global, digits: usize, length: Option<usize>, want: &str) {
    let word = repeated(rt, alloc, &[("0", digits)]);
    let mut room = Vec::new(alloc);
    let Ok(octets) = read_word(alloc, &mut room, word.as_bytes()) else {
        holds_of(rt, digits, false);
        return;
    };
    let octets_len = octets.map(|octets| octets.len());
    same_of(rt, digits, octets_len, length);
    let line = joined(rt, alloc, &["hbh ", word.as_str()]);
    let (input, want) = (line.as_bytes(), want.as_bytes());
    check_input(rt, alloc, &digits, input, length.is_some(), want);
}

#[test]
fn words_of_the_most_digits(rt: HostRuntime) {
    const ROWS: &[(usize, Option<usize>, &str)] = &[
        (
            131_070,
            Some(65_535),
            "Pad1\nPad1\nPad1\nPad1\nPad1\nPad1\nPad1\nPad1\n",
        ),
        (131_071, None, "bad line\n"),
        (131_072, None, "bad line\n"),
    ];
    for &(digits, length, want) in ROWS {
        check_digits(&rt, rt.alloc(), digits, length, want);
    }
}

// A line that is made of texts, each so often, prints this, and then another line what it does.
fn check_repeated(
    rt: &impl Abort,
    alloc: Global,
    texts: &[(&str, usize)],
    known: bool,
    want: &str,
) {
    let mut input = repeated(rt, alloc, texts);
    append(rt, &mut input, "\nhbh 00", 1);
    let want = joined(rt, alloc, &[want, "Pad1\n"]);
    let (input, want) = (input.as_bytes(), want.as_bytes());
    check_input(rt, alloc, &texts, input, known, want);
}

#[test]
fn lines_at_their_limits(rt: HostRuntime) {
    const ROWS: &[(&[(&str, usize)], bool, &str)] = &[
        (
            &[("hbh ", 1), ("0", 131_070), ("\r", 1)],
            true,
            "Pad1\nPad1\nPad1\nPad1\nPad1\nPad1\nPad1\nPad1\n",
        ),
        (
            &[("hbh ", 1), ("0", 131_070), ("\r", 2)],
            false,
            "bad line\n",
        ),
        (
            &[("hbh ", 1), ("0", 131_071), ("\r", 1)],
            false,
            "bad line\n",
        ),
        (&[("hbh ", 1), ("0", 131_072)], false, "bad line\n"),
        (&[("hbh ", 1), ("0", 1_000_000)], false, "bad line\n"),
        (&[("h", 131_070), (" ", 1), ("-", 1)], false, "bad line\n"),
        (&[("h", 131_072), (" ", 1), ("-", 1)], false, "bad line\n"),
        // Spaces before, between and after, and alone.
        (
            &[(" ", 1_000_000), ("hbh 0100", 1), ("\r", 1)],
            true,
            "PadN=0\n",
        ),
        (
            &[("hbh", 1), (" ", 1_000_000), ("0100", 1)],
            true,
            "PadN=0\n",
        ),
        (
            &[("hbh 0100", 1), (" ", 1_000_000), ("\r", 1)],
            true,
            "PadN=0\n",
        ),
        (&[(" ", 1_000_000), ("\r", 1)], true, ""),
        (&[(" ", 1_000_000), ("\r", 2)], false, "bad line\n"),
        (&[(" ", 1_000_000), ("\t", 1)], false, "bad line\n"),
        // Words too many, the last of them a CR.
        (&[("hbh", 1), (" 0100", 5)], false, "bad line\n"),
        (&[("hbh", 1), (" 0100", 300_000)], false, "bad line\n"),
        (&[("hbh 0100", 1), (" ", 1), ("\r", 1)], true, "PadN=0\n"),
        (&[("hbh", 1), (" 0100", 4), (" \r", 1)], false, "bad line\n"),
    ];
    for &(texts, known, want) in ROWS {
        check_repeated(&rt, rt.alloc(), texts, known, want);
    }
}

// The digits of all octets but the last.
fn digits_of_octets(rt: &impl Abort, alloc: Global) -> String {
    let mut digits = String::new(alloc);
    for octet in 0..255u8 {
        holds_of(rt, octet, write!(digits, "{octet:02x}").is_ok());
    }
    digits
}

#[test]
fn octets_of_every_value(rt: HostRuntime) {
    let digits = digits_of_octets(&rt, rt.alloc());
    let line = joined(&rt, rt.alloc(), &["hbh 11ff", digits.as_str()]);
    let want = "Unknown\ntype_=17\nlength=255\ndata=";
    let want = joined(&rt, rt.alloc(), &[want, digits.as_str(), "\n"]);
    check_line(&rt, rt.alloc(), line.as_str(), want.as_str());
}

#[test]
fn an_input_of_70_000_lines(rt: HostRuntime) {
    let input = repeated(&rt, rt.alloc(), &[("hbh 00\nhbh 0100\n", 35_000)]);
    let want = repeated(&rt, rt.alloc(), &[("Pad1\nPadN=0\n", 35_000)]);
    let (input, want) = (input.as_bytes(), want.as_bytes());
    check_input(&rt, rt.alloc(), &"70,000 lines", input, true, want);
}
