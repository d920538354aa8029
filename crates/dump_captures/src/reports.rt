//! What the program says on standard error.

use crate::arguments::Wrong;
use crate::summary::write_summary;
use crate::tally::Tally;
use crate::{Fault, help};
use capture::Ending;
use std::io;
use std::str::from_utf8;

/// Prints that a file can't be opened, and why.
pub fn report_unopened(rt: &impl Eprint, file: &str, error: &io::Error) {
    let _ = eprintln!(rt; "pcapdump: {file}: {error}");
}

/// Prints the number of packets of a capture, or of all captures where they have no name.
pub fn report_counts(
    rt: &(impl Eprint + AllocGlobal),
    name: Option<&str>,
    tally: &Tally,
) -> Result<(), Fault> {
    let mut summary = Vec::new(rt.alloc());
    write_summary(&mut summary, tally)?;
    if let Ok(summary) = from_utf8(summary.as_slice()) {
        let _ = match name {
            Some(name) => eprintln!(rt; "pcapdump: {name}: {summary}"),
            None => eprintln!(rt; "pcapdump: {summary}"),
        };
    }
    Ok(())
}

/// Prints what ended a capture if it did not end after a whole record; of a file of gzip how it can be read.
pub fn report_ending(rt: &impl Eprint, file: &str, ending: Ending, packets: u64, is_gzip: bool) {
    let _ = match (ending, packets) {
        (Ending::Whole, _) => Ok(()),
        (Ending::NotACapture, 0) if is_gzip => {
            eprintln!(rt; "pcapdump: {file}: {ending} but a file of gzip: zcat {file} | ./pcapdump")
        }
        (_, 0) => eprintln!(rt; "pcapdump: {file}: {ending}"),
        (_, last) => eprintln!(rt; "pcapdump: {file}: {ending}, after packet {last}"),
    };
}

/// Prints that an input could not be read further, and why.
pub fn report_unread(rt: &impl Eprint, file: &str, error: Option<io::Error>, packets: u64) {
    let _ = match (error, packets) {
        (None, _) => eprintln!(rt; "pcapdump: {file}: reading failed"),
        (Some(error), 0) => eprintln!(rt; "pcapdump: {file}: reading failed: {error}"),
        (Some(error), last) => {
            eprintln!(rt; "pcapdump: {file}: reading failed: {error}, after packet {last}")
        }
    };
}

/// Prints what is wrong with the arguments, and the usage.
pub fn report_wrong(rt: &impl Eprint, wrong: &Wrong) {
    let _ = match wrong {
        Wrong::UnknownOption(word, Some(near)) => {
            eprintln!(rt;
                "pcapdump: unknown option {}; did you mean {near}?",
                word.as_str()
            )
        }
        Wrong::UnknownOption(word, None) => {
            eprintln!(rt; "pcapdump: unknown option {}", word.as_str())
        }
        Wrong::UnknownKind(name, near) => {
            report_kind(rt, name.as_str(), *near);
            Ok(())
        }
        Wrong::BadValue(setting, text) => {
            let (option, value) = (setting.name(), setting.value());
            eprintln!(rt; "pcapdump: {option} wants {value}, not '{}'", text.as_str())
        }
        Wrong::MissingValue(setting) => {
            let (option, value) = (setting.name(), setting.value());
            eprintln!(rt; "pcapdump: {option} wants {value}")
        }
        Wrong::NotText => eprintln!(rt; "pcapdump: an argument is not UTF-8"),
    };
    let _ = eprintln!(rt; "{}", help::USAGE);
}

// Prints that there is no such kind, and which there are.
fn report_kind(rt: &impl Eprint, name: &str, near: Option<&'static str>) {
    let kinds = help::KINDS;
    let _ = match near {
        Some(near) => {
            eprintln!(rt;
                "pcapdump: unknown kind '{name}'; did you mean {near}? The kinds are {kinds}"
            )
        }
        None => eprintln!(rt; "pcapdump: unknown kind '{name}'; the kinds are {kinds}"),
    };
}

/// Prints what ended the program. A closed output is not a fault.
pub fn report_fault(rt: &impl Eprint, fault: Fault) {
    let what = match fault {
        Fault::Closed => return,
        Fault::Memory => "there is no memory",
        Fault::Read => "reading failed",
        Fault::Write => "writing failed",
    };
    let _ = eprintln!(rt; "pcapdump: {what}");
}
