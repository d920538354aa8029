//! The files of a run, one after another, and the status at the end.

ghost use Rattle.std.specs.Prelude.{◌≡◌, ℕ, List, Option, Some, IfOk, IfSome, OnOk, length, map, nat_lt, string_bytes};
ghost use Rattle.std.specs.Option.{option_map};
ghost use Rattle.packet_fields.specs.Output.{Gains, GainsSome};
ghost use Rattle.dump_captures.specs.Files.{bytes_of_name, counts_before, ending_status, FilePrints, FilesPrint};
ghost use Rattle.dump_captures.specs.Files.{end_text, names_of, title, told_name, RunPrints};
ghost use Rattle.dump_captures.specs.Tally.{tally_of};

use crate::Fault;
use crate::options::Options;
use crate::packets::dump_readable;
use crate::reports::{report_counts, report_ending, report_unopened, report_unread};
use crate::stop::Stop;
use crate::table::show_table;
use crate::tally::Tally;
use capture::Ending;
use packet_fields::Form;
use std::io;
use std::io::{Read, Write};

/// The status where all was read that is asked for.
pub const WHOLE: u8 = 0;

/// The status where a capture ends within a record, or its continuation is not one.
pub const BROKEN: u8 = 1;

/// The status where an argument, a file's name or a file is wrong.
pub const WRONG: u8 = 2;

/// The status where reading, writing or memory failed.
pub const FAILED: u8 = 3;

/// Where captures are read from.
pub trait Captures {
    /// What reads the standard input.
    type Reader: Read + Drop;

    /// What reads a file.
    type File: Read + Drop;

    // The bytes of the standard input, and of the file of a name, where they are known.
    ghost input_bytes: { Self → Option (List ℕ) };

    ghost file_bytes: { Self → List ℕ → Option (List ℕ) };

    /// The standard input.
    fn reader(&self) -> Self::Reader
        ensures { IfSome (input_bytes self.now) (λ bytes. Self.Reader.remaining result ≡ Some bytes) };

    /// Opens a file.
    fn open(&self, name: &str) -> io::Result<Self::File>
        ensures { IfOk result (λ file. IfSome (file_bytes self.now name.now)
            (λ bytes. Self.File.remaining file ≡ Some bytes)) };
}

// What a file of gzip begins with (RFC 1952 section 2.3.1).
const GZIP: [u8; 2] = [0x1f, 0x8b];

// An input that keeps the last error of a read, and whether it is a file of gzip.
#[derive(Drop)]
struct Watched<R> {
    input: R,
    error: Option<io::Error>,
    // Whether something was read, and whether it begins as a file of gzip does.
    is_begun: bool,
    is_gzip: bool,
}

impl<R: Read> Read for Watched<R> {
    ghost remaining = { λ watched. R.remaining watched.input };

    fn read(&mut self, buf: &mut [u8]) -> io::Result<usize> {
        match self.input.read(buf) {
            Ok(count) => {
                if !self.is_begun {
                    self.is_begun = true;
                    self.is_gzip = count >= GZIP.len() && buf.starts_with(&GZIP);
                }
                Ok(count)
            }
            Err(error) => {
                // The reader knows by the error's kind whether to try again.
                let kind = error.kind();
                self.error = Some(error);
                Err(io::Error::from(kind))
            }
        }
    }
}

/// Prints the captures of these files, and where packets are only counted the table at the end, with one line for all
/// files. The status becomes the highest of each file, also where a fault ends the run.
pub fn dump_all<C: Captures, W: Write>(
    rt: &(impl Eprint + AllocGlobal),
    captures: &C,
    options: &Options,
    files: &[String],
    output: &mut W,
    status: &mut u8,
) -> Result<(), Fault>
    ensures { OnOk result (GainsSome (W.contents output.old) (W.contents output.new) (λ text.
        RunPrints options.now (bytes_of_name (C.input_bytes captures.now) (C.file_bytes captures.now))
        (map string_bytes files.now) status.old text status.new)) }
{
    let mut total = Tally::new();
    dump_each(rt, captures, options, files, output, &mut total, status)?;
    show_end(rt, options, files, output, &total)
}

// Prints the table of all files where packets are only counted, and then the line.
fn show_end<W: Write>(
    rt: &(impl Eprint + AllocGlobal),
    options: &Options,
    files: &[String],
    output: &mut W,
    total: &Tally,
) -> Result<(), Fault>
    ensures { OnOk result (Gains (W.contents output.old) (W.contents output.new)
        (end_text options.now (tally_of total.now))) }
{
    if options.prints {
        return Ok(());
    }
    show_table(output, &options.only, total)?;
    output.flush()?;
    report_counts(rt, name_of_all(files), total)
}

// Prints the captures of these files, and where there are several the name above each.
fn dump_each<C: Captures, W: Write>(
    rt: &(impl Eprint + AllocGlobal),
    captures: &C,
    options: &Options,
    files: &[String],
    output: &mut W,
    total: &mut Tally,
    status: &mut u8,
) -> Result<(), Fault>
    ensures { OnOk result (GainsSome (W.contents output.old) (W.contents output.new) (λ text.
        FilesPrint options.now (bytes_of_name (C.input_bytes captures.now) (C.file_bytes captures.now))
        (nat_lt 1 (length files.now)) (names_of (map string_bytes files.now)) (tally_of total.old)
        status.old text (tally_of total.new) status.new)) }
{
    if files.is_empty() {
        let own = dump_file(rt, captures, options, false, "-", output, total)?;
        *status = (*status).max(own);
        return Ok(());
    }
    for file in files {
        let several = files.len() > 1;
        show_title(options, several, file.as_str(), output)?;
        let own = dump_file(rt, captures, options, several, file.as_str(), output, total)?;
        *status = (*status).max(own);
    }
    Ok(())
}

// Prints the name of a file above its packets, where there are several.
fn show_title<W: Write>(
    options: &Options,
    several: bool,
    file: &str,
    output: &mut W,
) -> io::Result<()>
    ensures { OnOk result (Gains (W.contents output.old) (W.contents output.new)
        (title options.now several file.now)) }
{
    if !options.prints || !several || options.form == Form::Json {
        return Ok(());
    }
    output.write_all(file.as_bytes())?;
    output.write_all(b":\n")
}

// Prints the capture of a file, and returns the status. A fault of the output or of memory ends the run.
fn dump_file<C: Captures, W: Write>(
    rt: &(impl Eprint + AllocGlobal),
    captures: &C,
    options: &Options,
    several: bool,
    file: &str,
    output: &mut W,
    tally: &mut Tally,
) -> Result<u8, Fault>
    ensures { IfOk result (λ status. GainsSome (W.contents output.old) (W.contents output.new) (λ text.
        FilePrints options.now (told_name several file.now)
        (bytes_of_name (C.input_bytes captures.now) (C.file_bytes captures.now) file.now)
        (counts_before options.now (tally_of tally.old)) text (tally_of tally.new) status)) }
{
    start_counts(options, tally);
    if file == "-" {
        return dump_input(rt, options, several, file, captures.reader(), output, tally);
    }
    match captures.open(file) {
        Ok(input) => dump_input(rt, options, several, file, input, output, tally),
        Err(error) => {
            report_unopened(rt, file, &error);
            Ok(WRONG)
        }
    }
}

// Counts a file by itself where packets are printed.
fn start_counts(options: &Options, tally: &mut Tally)
    ensures { tally_of tally.new ≡ counts_before options.now (tally_of tally.old) }
{
    if options.prints {
        *tally = Tally::new();
    }
}

// Prints the capture of an input, and returns the status.
fn dump_input<R: Read + Drop, W: Write>(
    rt: &(impl Eprint + AllocGlobal),
    options: &Options,
    several: bool,
    name: &str,
    input: R,
    output: &mut W,
    tally: &mut Tally,
) -> Result<u8, Fault>
    ensures { IfOk result (λ status. GainsSome (W.contents output.old) (W.contents output.new) (λ text.
        FilePrints options.now (told_name several name.now) (R.remaining input) (tally_of tally.old) text
        (tally_of tally.new) status)) }
{
    let before = tally.packets;
    let mut input = Watched {
        input,
        error: None,
        is_begun: false,
        is_gzip: false,
    };
    let told = told_name(several, name);
    let stop = dump_readable(rt.alloc(), options, told, &mut input, output, tally)?;
    if options.prints {
        report_counts(rt, Some(name), tally)?;
    }
    let packets = tally.packets.saturating_sub(before);
    match stop {
        Stop::Ended(ending) => {
            report_ending(rt, name, ending, packets, input.is_gzip);
            Ok(status_of(ending))
        }
        Stop::Enough => Ok(WHOLE),
        Stop::Unread => {
            report_unread(rt, name, input.error, packets);
            Ok(FAILED)
        }
    }
}

// The name that is told with each packet.
fn told_name(several: bool, name: &str) -> Option<&str>
    ensures { option_map (λ name. name.now) result ≡ told_name several name.now }
{
    if several { Some(name) } else { None }
}

// The status of a capture that ends so.
fn status_of(ending: Ending) -> u8
    ensures { result ≡ ending_status ending }
{
    match ending {
        Ending::Whole => WHOLE,
        Ending::Version | Ending::NotACapture => WRONG,
        _ => BROKEN,
    }
}

// The name of all these captures together; only a single capture has one.
fn name_of_all(files: &[String]) -> Option<&str> {
    match files {
        [] => Some("-"),
        [file] => Some(file.as_str()),
        _ => None,
    }
}
