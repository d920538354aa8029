//! The program: its arguments, its files and its status.

ghost use Rattle.std.specs.Prelude.{None};

use crate::arguments::{Task, Wrong, read_task};
use crate::files::{Captures, FAILED, WHOLE, WRONG, dump_all};
use crate::options::{Color, Options};
use crate::reports::{report_fault, report_wrong};
use crate::{Fault, help};
use std::env::{Env, VarError};
use std::io::{BufWriter, Input, Write};
use std::rt::Files;
use std::{env, fs, io};

// The bytes of the output's buffer.
const BUFFER_LEN: usize = 65_536;

// The standard input and the files of the machine.
#[derive(Drop)]
struct Machine<'a, R> {
    rt: &'a R,
}

impl<R: Files + Input> Captures for Machine<'_, R> {
    type Reader = R::Reader;

    type File = R::File;

    ghost input_bytes = { λ machine. None };

    ghost file_bytes = { λ machine name. None };

    fn reader(&self) -> Self::Reader {
        let rt = self.rt;
        rt.reader()
    }

    // A directory can be opened too, but not read.
    fn open(&self, name: &str) -> io::Result<Self::File> {
        let rt = self.rt;
        if fs::metadata(rt, name)?.is_dir() {
            return Err(io::Error::from(io::ErrorKind::IsADirectory));
        }
        fs::open(rt, name)
    }
}

/// The whole of `pcapdump`: prints what the files that the arguments name hold, and returns the program's status. Is
/// told whether standard output is a terminal.
pub fn run_program(
    rt: &(impl Env + Files + Input + Print + Eprint + AllocGlobal),
    is_terminal: bool,
) -> u8 {
    let task = match env::args(rt) {
        Ok(arguments) => read_task(rt.alloc(), arguments),
        Err(error) if error.kind() == io::ErrorKind::InvalidData => {
            Ok(Task::Unknown(Wrong::NotText))
        }
        Err(_) => Err(Fault::Memory),
    };
    match task {
        Ok(Task::Dump(options, files)) => {
            let options = with_color(rt, options, is_terminal);
            dump_files(rt, &options, files.as_slice())
        }
        Ok(Task::Help) => print_help(rt),
        Ok(Task::Version) => print_version(rt),
        Ok(Task::Unknown(wrong)) => {
            report_wrong(rt, &wrong);
            WRONG
        }
        Err(fault) => end_by(rt, fault),
    }
}

// The options with colors where the usual choice is to have them: on a terminal, unless NO_COLOR forbids them.
fn with_color(rt: &(impl Env + AllocGlobal), options: Options, is_terminal: bool) -> Options {
    let mut options = options;
    if options.color == Color::Auto && is_terminal && !forbids_color(rt) {
        options.color = Color::Always;
    }
    options
}

// Whether the environment has a variable NO_COLOR that is not empty (https://no-color.org).
fn forbids_color(rt: &(impl Env + AllocGlobal)) -> bool {
    match env::var(rt, "NO_COLOR") {
        Ok(value) => !value.as_str().is_empty(),
        Err(VarError::NotPresent) => false,
        Err(_) => true,
    }
}

// Prints the help, and returns the status.
fn print_help(rt: &(impl Print + Eprint)) -> u8 {
    match println!(rt; "{}\n\n{}", help::USAGE, help::HELP) {
        Ok(()) => WHOLE,
        Err(error) => end_by(rt, Fault::from(error)),
    }
}

// Prints the version, and returns the status.
fn print_version(rt: &(impl Print + Eprint)) -> u8 {
    match println!(rt; "pcapdump {}", help::VERSION) {
        Ok(()) => WHOLE,
        Err(error) => end_by(rt, Fault::from(error)),
    }
}

// Prints the captures of these files, and returns the highest of their statuses.
fn dump_files(
    rt: &(impl Files + Input + Print + Eprint + AllocGlobal),
    options: &Options,
    files: &[String],
) -> u8 {
    let Ok(mut output) = BufWriter::with_capacity(rt.alloc(), BUFFER_LEN, io::writer(rt)) else {
        return end_by(rt, Fault::Memory);
    };
    let mut status = WHOLE;
    let machine = Machine { rt };
    let answer = dump_all(rt, &machine, options, files, &mut output, &mut status);
    // What a fault left in the buffer precedes the fault's message.
    let flushed = output.flush();
    match (answer, flushed) {
        (Ok(()), Ok(())) => status,
        (Err(fault), _) => status.max(end_by(rt, fault)),
        (_, Err(error)) => status.max(end_by(rt, Fault::from(error))),
    }
}

// Prints what ended the program, and returns the status. A closed output is not a fault.
fn end_by(rt: &impl Eprint, fault: Fault) -> u8 {
    report_fault(rt, fault);
    match fault {
        Fault::Closed => WHOLE,
        Fault::Memory | Fault::Read | Fault::Write => FAILED,
    }
}
