//! Readers and writers that fail.

use super::{joined, repeated};
use crate::testing::{holds_of, same_of};
use dump_lines::line::show_line;
use dump_lines::partial_line::{Line, read_line};
use dump_lines::{Fault, run, status};
use std::alloc::Global;
use std::io;
use std::io::{BufReader, ErrorKind, Read, Write};
use std::process::Abort;

// A line of each word, and a bad one.
const LINES: &[&str] = &[
    "hbh 010400000000\n",
    "icmp4 08008efe1234abcdaa0000ff\n",
    "icmp6 fe800000000000000000000000000001 fe800000000000000000000000000002 800019b31234ab\
        cdaa0000ff\n",
    "mld 8f0000000000000104000000ff020000000000000000000000000002\n",
    "igmp 1180ee7f00000000\n",
    "dhcp 010106000000000000000000000000000000000000000000000000000000000000000000000000000\
        00000000000000000000000000000000000000000000000000000000000000000000000000000000000000\
        00000000000000000000000000000000000000000000000000000000000000000000000000000000000000\
        00000000000000000000000000000000000000000000000000000000000000000000000000000000000000\
        00000000000000000000000000000000000000000000000000000000000000000000000000000000000000\
        0000000000000000000000000000000000000000000000063825363350101ff\n",
    "ndopt 05010000000005dc\n",
    "question 01610000010001\n",
    "name 12 0000000000000000000000000161c0100162c00c\n",
    "foo -\n",
];

#[test]
fn statuses(rt: HostRuntime) {
    const ROWS: &[(Result<bool, Fault>, u8)] = &[
        (Ok(true), 0),
        (Ok(false), 2),
        (Err(Fault::Read), 3),
        (Err(Fault::Write), 3),
        (Err(Fault::Memory), 3),
    ];
    for (answer, code) in ROWS {
        same_of(&rt, answer, status(answer), *code);
    }
}

// How many octets are given at a call.
const GIVEN: usize = 8;

// Gives octets, and fails at one call.
#[derive(Drop)]
struct Source<'a> {
    octets: &'a [u8],
    calls: usize,
    fails_at: usize,
    kind: ErrorKind,
}

impl Read for Source<'_> {
    fn read(&mut self, buffer: &mut [u8]) -> io::Result<usize> {
        let call = self.calls;
        self.calls = call.wrapping_add(1);
        if call == self.fails_at {
            return Err(io::Error::from(self.kind));
        }
        let length = buffer.len().min(self.octets.len()).min(GIVEN);
        let (given, left) = self.octets.split_at(length);
        buffer[..length].copy_from_slice(given);
        self.octets = left;
        Ok(length)
    }
}

// What the lines print that end within so many octets, each in a run of its own. Other tests have their texts.
fn listing(rt: &impl Abort, alloc: Global, octets: usize) -> Vec<u8> {
    let mut printed = Vec::new(alloc);
    let mut end = 0usize;
    for line in LINES {
        end = end.wrapping_add(line.len());
        if end <= octets {
            let answer = run(alloc, line.as_bytes(), &mut printed);
            holds_of(rt, line, answer.is_ok());
        }
    }
    printed
}

// Compares what is printed of a source that fails, or does not: it is what the lines print that end before that call.
fn check_source(rt: &impl Abort, alloc: Global, source: Source<'_>, fails: bool) {
    let fails_at = source.fails_at;
    let octets = if fails {
        fails_at.saturating_mul(GIVEN)
    } else {
        usize::MAX
    };
    let mut output = Vec::new(alloc);
    let answer = run(alloc, source, &mut output);
    let wanted = if fails { Err(Fault::Read) } else { Ok(false) };
    same_of(rt, fails_at, answer, wanted);
    let listing = listing(rt, alloc, octets);
    same_of(rt, fails_at, output.as_slice(), listing.as_slice());
}

// Fails at each call in turn, and at one more than there are.
fn check_sources(rt: &impl Abort, alloc: Global, octets: &[u8], kind: ErrorKind, fails: bool) {
    // Calls for all octets, and one more at the end.
    let calls = octets.len() / GIVEN + 1;
    for fails_at in 0..calls + 1 {
        let source = Source {
            octets,
            calls: 0,
            fails_at,
            kind,
        };
        check_source(rt, alloc, source, fails && fails_at < calls);
    }
}

#[test]
fn reads_that_fail(rt: HostRuntime) {
    const ROWS: &[(ErrorKind, bool)] = &[
        (ErrorKind::ConnectionReset, true),
        (ErrorKind::OutOfMemory, true),
        // It is tried again.
        (ErrorKind::Interrupted, false),
    ];
    let input = joined(&rt, rt.alloc(), LINES);
    for &(kind, fails) in ROWS {
        check_sources(&rt, rt.alloc(), input.as_bytes(), kind, fails);
    }
}

// What an input with a bad line prints where nothing fails.
fn printed(rt: &impl Abort, alloc: Global, input: &[u8]) -> Vec<u8> {
    let mut output = Vec::new(alloc);
    same_of(rt, input, run(alloc, input, &mut output), Ok(false));
    output
}

// Takes some octets a call, and fails at one call, or from it on.
#[derive(Drop)]
struct Sink<'a> {
    output: &'a mut Vec<u8>,
    // How many octets it had taken when it failed first, and how many it was given then.
    failed: &'a mut (usize, usize),
    calls: usize,
    fails_at: usize,
    for_good: bool,
    kind: ErrorKind,
}

impl Sink<'_> {
    fn fail(&mut self, given: usize) -> io::Result<()> {
        let call = self.calls;
        self.calls = call.wrapping_add(1);
        if call == self.fails_at {
            *self.failed = (self.output.as_slice().len(), given);
        }
        if call == self.fails_at || self.for_good && call > self.fails_at {
            return Err(io::Error::from(self.kind));
        }
        Ok(())
    }
}

impl Write for Sink<'_> {
    fn write(&mut self, buffer: &[u8]) -> io::Result<usize> {
        self.fail(buffer.len())?;
        let length = buffer.len().min(5_000);
        self.output.extend_from_slice(&buffer[..length])?;
        Ok(length)
    }

    fn flush(&mut self) -> io::Result<()> {
        self.fail(0)
    }
}

// A line of each word, and then lines of 255 octets that print about 540 each.
fn long_input(rt: &impl Abort, alloc: Global) -> String {
    let long = repeated(rt, alloc, &[("hbh 11ff", 1), ("a", 510), ("\nfoo\n", 1)]);
    let lines = joined(rt, alloc, LINES);
    repeated(rt, alloc, &[(lines.as_str(), 1), (long.as_str(), 60)])
}

// Compares what was printed to a sink with what is printed to one that never fails, or with so many octets of that
// where a write failed; true where none did.
fn check_written(
    rt: &impl Abort,
    fails_at: usize,
    answers: (Result<bool, Fault>, Result<bool, Fault>),
    fault: Fault,
    output: &[u8],
    undisturbed: &[u8],
    octets: usize,
) -> bool {
    let (answer, known) = answers;
    if answer == known {
        same_of(rt, fails_at, output, undisturbed);
        return true;
    }
    same_of(rt, fails_at, answer, Err(fault));
    same_of(rt, fails_at, Some(output), undisturbed.get(..octets));
    false
}

// Compares what is printed to a sink that fails at one call, or from it on; true where no write failed. What it was
// given when it failed is given again.
fn check_sink(
    rt: &impl Abort,
    alloc: Global,
    input: &[u8],
    fails_at: usize,
    row: &(ErrorKind, Fault, bool),
    undisturbed: &[u8],
) -> bool {
    let (kind, fault, for_good) = *row;
    let mut output = Vec::new(alloc);
    let mut failed = (0, 0);
    let sink = Sink {
        output: &mut output,
        failed: &mut failed,
        calls: 0,
        fails_at,
        for_good,
        kind,
    };
    let answers = (run(alloc, input, sink), Ok(false));
    let (taken, given) = failed;
    let octets = if for_good {
        taken
    } else {
        taken.saturating_add(given)
    };
    let output = output.as_slice();
    check_written(rt, fails_at, answers, fault, output, undisturbed, octets)
}

// More calls than a sink gets.
const MOST_CALLS: usize = 32;

// Fails at each call in turn, until there are no more calls.
fn check_sinks(
    rt: &impl Abort,
    alloc: Global,
    input: &[u8],
    row: &(ErrorKind, Fault, bool),
    undisturbed: &[u8],
) {
    let mut succeeded = false;
    for fails_at in 0..MOST_CALLS {
        let printed = check_sink(rt, alloc, input, fails_at, row, undisturbed);
        holds_of(rt, fails_at, printed || !succeeded);
        succeeded = printed;
    }
    holds_of(rt, "more calls than were tried", succeeded);
}

#[test]
fn writes_that_fail(rt: HostRuntime) {
    const ROWS: &[(ErrorKind, Fault, bool)] = &[
        (ErrorKind::BrokenPipe, Fault::Write, false),
        (ErrorKind::BrokenPipe, Fault::Write, true),
        (ErrorKind::OutOfMemory, Fault::Write, true),
    ];
    let input = long_input(&rt, rt.alloc());
    let undisturbed = printed(&rt, rt.alloc(), input.as_bytes());
    for row in ROWS {
        check_sinks(
            &rt,
            rt.alloc(),
            input.as_bytes(),
            row,
            undisturbed.as_slice(),
        );
    }
}

fn only_line(rt: &impl Abort, alloc: Global, octets: &[u8]) -> Line {
    let mut line = Line::new(alloc);
    let Ok(mut input) = BufReader::new(alloc, octets) else {
        holds_of(rt, octets, false);
        return line;
    };
    same_of(rt, octets, read_line(&mut input, &mut line), Ok(true));
    line
}

// Compares what a line prints to a sink that fails at one call; true where no write failed.
fn check_line(
    rt: &impl Abort,
    alloc: Global,
    line: &Line,
    fails_at: usize,
    known: Result<bool, Fault>,
    undisturbed: &[u8],
) -> bool {
    let mut output = Vec::new(alloc);
    let mut failed = (0, 0);
    let mut room = Vec::new(alloc);
    let mut sink = Sink {
        output: &mut output,
        failed: &mut failed,
        calls: 0,
        fails_at,
        for_good: false,
        kind: ErrorKind::BrokenPipe,
    };
    let answers = (show_line(alloc, &mut room, &mut sink, line), known);
    let (taken, _) = failed;
    let (fault, output) = (Fault::Write, output.as_slice());
    check_written(rt, fails_at, answers, fault, output, undisturbed, taken)
}

// At how many calls writing a line fails, each call in turn; 500 where it fails at each that is tried.
fn faults_of(
    rt: &impl Abort,
    alloc: Global,
    line: &Line,
    known: Result<bool, Fault>,
    undisturbed: &[u8],
) -> usize {
    for fails_at in 0..500 {
        if check_line(rt, alloc, line, fails_at, known, undisturbed) {
            return fails_at;
        }
    }
    500
}

fn check_faults(rt: &impl Abort, alloc: Global, text: &str) {
    let line = only_line(rt, alloc, text.as_bytes());
    let mut undisturbed = Vec::new(alloc);
    let known = show_line(alloc, &mut Vec::new(alloc), &mut undisturbed, &line);
    holds_of(rt, text, known.is_ok());
    let faults = faults_of(rt, alloc, &line, known, undisturbed.as_slice());
    holds_of(rt, text, faults > 1 && faults < 500);
}

// Each write of what a line prints fails in turn, with no buffer between.
#[test]
fn writes_of_each_word_that_fail(rt: HostRuntime) {
    for line in LINES {
        check_faults(&rt, rt.alloc(), line);
    }
}
