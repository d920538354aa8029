//! The packets of a capture, in one pass.

ghost use Rattle.std.specs.Prelude.{◌≡◌, ◌-◌, length, [], IfOk, IfSome, OnOk};
ghost use Rattle.std.specs.Option.{option_map};
ghost use Rattle.std.specs.Io.Buffered.{reader_remaining};
ghost use Rattle.packet_fields.specs.Output.{Gains, GainsSome};
ghost use Rattle.frame_wire.specs.TcpPrefixed.{messages_of};
ghost use Rattle.reassembly.specs.Fragment.{value_of};
ghost use Rattle.reassembly.specs.Partial.{whole_of};
ghost use Rattle.dump_captures.specs.Arrival.{arrival_of};
ghost use Rattle.dump_captures.specs.Dump.{CapturePrints, FragmentAdds, InputPrints, PacketPrints, ReadPrints};
ghost use Rattle.dump_captures.specs.Dump.{EachPrints, SightPrints, WholePrints, joined_outcome, nothing_kept};
ghost use Rattle.dump_captures.specs.Fragments.{refused_fragment};
ghost use Rattle.dump_captures.specs.Path.{path_of};
ghost use Rattle.dump_captures.specs.Sight.{sight_of, stream_of};
ghost use Rattle.dump_captures.specs.Tally.{tally_of, empty};
ghost use Rattle.dump_captures.specs.declared.tally.Outcome.TheVariants.{Passed};
ghost use Rattle.dump_captures.specs.private.Kept.{kept_of, session_of};

use crate::Fault;
use crate::arrival::Arrival;
use crate::end::show_end;
use crate::fragments::{look_at_joined, refused_fragment};
use crate::options::Options;
use crate::path::Path;
use crate::printed::show_control;
use crate::progress::Progress;
use crate::refusal::Refusal;
use crate::session::Session;
use crate::sight::{Finding, Segment, Sight, look, protocol_category};
use crate::stop::Stop;
use crate::tally::{Counted, Outcome, Tally};
use capture::{Capture, Ending, Next};
use reassembly::{Answer, Fragment, Reassembly, Whole};
use std::alloc::Global;
use std::io::{BufReader, BufWriter, Read, Write};

// The bytes of the buffers of input and output.
const BUFFER_LEN: usize = 65_536;

/// The result of the dump of a capture.
#[derive(Drop)]
pub struct Report<W> {
    /// What ends the capture; None where its reading stopped after as many packets as were asked for.
    pub ending: Option<Ending>,
    /// The counts of its packets.
    pub tally: Tally,
    /// The output, with all that was printed written out.
    pub output: W,
}

/// Prints the packets of a capture.
///
/// What was printed before a fault is written out first, as far as the output takes it.
pub fn run_onto<R: Read + Drop, W: Write + Drop>(
    alloc: Global,
    options: &Options,
    input: R,
    output: W,
) -> Result<Report<W>, Fault>
    ensures { IfOk result (λ report. IfSome (R.remaining input) (λ bytes.
        GainsSome (W.contents output) (W.contents report.output) (λ text.
        CapturePrints options.now bytes empty text (tally_of report.tally) report.ending))) }
{
    let Ok(mut output) = BufWriter::with_capacity(alloc, BUFFER_LEN, output) else {
        return Err(Fault::Memory);
    };
    let mut tally = Tally::new();
    let ending = dump(alloc, options, input, &mut output, &mut tally)?;
    match output.into_inner() {
        Ok(output) => Ok(Report {
            ending,
            tally,
            output,
        }),
        Err(_) => Err(Fault::Write),
    }
}

/// Dumps to an output that has a buffer, and adds to the counts so far.
pub fn dump<R: Read + Drop, W: Write>(
    alloc: Global,
    options: &Options,
    input: R,
    output: &mut W,
    tally: &mut Tally,
) -> Result<Option<Ending>, Fault>
    ensures { IfOk result (λ ending. IfSome (R.remaining input) (λ bytes.
        GainsSome (W.contents output.old) (W.contents output.new) (λ text.
        CapturePrints options.now bytes (tally_of tally.old) text (tally_of tally.new) ending))) }
{
    match dump_readable(alloc, options, None, input, output, tally)? {
        Stop::Ended(ending) => Ok(Some(ending)),
        Stop::Enough => Ok(None),
        Stop::Unread => Err(Fault::Read),
    }
}

/// Dumps as far as the input can be read, or as is asked for. Objects of JSON have the name of the file, if there is
/// one.
pub fn dump_readable<R: Read + Drop, W: Write>(
    alloc: Global,
    options: &Options,
    file: Option<&str>,
    input: R,
    output: &mut W,
    tally: &mut Tally,
) -> Result<Stop, Fault>
    ensures { IfOk result (λ stop. GainsSome (W.contents output.old) (W.contents output.new) (λ text.
        InputPrints options.now (option_map (λ name. name.now) file.entry) (R.remaining input)
        (tally_of tally.old) text (tally_of tally.new) stop)) }
{
    let Ok(mut input) = BufReader::with_capacity(alloc, BUFFER_LEN, input) else {
        return Err(Fault::Memory);
    };
    let answer = show_capture(alloc, options, file, &mut input, output, tally);
    let flushed = output.flush();
    let stop = answer?;
    if stop != Stop::Unread {
        flushed?;
    }
    Ok(stop)
}

// What is kept from packet to packet of a capture.
#[derive(Drop)]
struct Kept {
    fragments: Reassembly,
    session: Session,
}

// Prints the packets, and then what stands behind them, and returns where the reading stops.
fn show_capture<R: Read, W: Write>(
    alloc: Global,
    options: &Options,
    file: Option<&str>,
    input: &mut BufReader<R>,
    output: &mut W,
    tally: &mut Tally,
) -> Result<Stop, Fault>
    ensures { IfOk result (λ stop. GainsSome (W.contents output.old) (W.contents output.new) (λ text.
        InputPrints options.now (option_map (λ name. name.now) file.entry) (reader_remaining R.remaining input.old)
        (tally_of tally.old) text (tally_of tally.new) stop)) }
{
    let mut kept = Kept {
        fragments: Reassembly::new(alloc),
        session: Session::new(alloc),
    };
    let stop = show_packets(alloc, options, file, input, output, &mut kept, tally)?;
    show_end(output, alloc, options, file, &mut kept.session)?;
    Ok(stop)
}

// Prints the packets, and returns where the reading stops. What is printed is written out before the input is waited
// for.
fn show_packets<R: Read, W: Write>(
    alloc: Global,
    options: &Options,
    file: Option<&str>,
    input: &mut BufReader<R>,
    output: &mut W,
    kept: &mut Kept,
    tally: &mut Tally,
) -> Result<Stop, Fault>
    requires { kept_of kept.old ≡ nothing_kept }
    ensures { IfOk result (λ stop. GainsSome (W.contents output.old) (W.contents output.new) (λ text.
        ReadPrints options.now (option_map (λ name. name.now) file.entry) (reader_remaining R.remaining input.old)
        (tally_of tally.old) text (tally_of tally.new) (session_of kept.new.session) stop)) }
{
    let mut capture = Capture::new(alloc);
    let mut progress = Progress::new(options);
    'packets: for _ in 0..u64::MAX {
        if progress.is_enough() {
            return Ok(Stop::Enough);
        }
        write_out_before_wait(&capture, input, output)?;
        match capture.next(input) {
            Ok(Next::Record(record)) => {
                let arrival = Arrival {
                    file,
                    record: &record,
                    octets: capture.octets(),
                    when: progress.when(record.time),
                };
                let counted = show_packet(options, output, alloc, kept, &arrival)?;
                progress.pass(record.time, counted.outcome);
                tally.count(counted, record.link_type, arrival.octets.len() as u64);
            }
            Ok(Next::Ended(ending)) => return Ok(Stop::Ended(ending)),
            Err(capture::Fault::Read) => return Ok(Stop::Unread),
            Err(fault) => return Err(Fault::from(fault)),
        }
    }
    Ok(Stop::Unread)
}

// Writes out what was printed, where the reading of the next packet has to wait for more of the input.
fn write_out_before_wait<R: Read, W: Write>(
    capture: &Capture,
    input: &BufReader<R>,
    output: &mut W,
) -> Result<(), Fault>
    ensures { OnOk result (Gains (W.contents output.old) (W.contents output.new) []) }
{
    if !capture.shows_next(input.buffer()) {
        output.flush()?;
    }
    Ok(())
}

// Prints a packet, or the datagram that was put together with it.
fn show_packet<W: Write>(
    options: &Options,
    output: &mut W,
    alloc: Global,
    kept: &mut Kept,
    arrival: &Arrival<'_>,
) -> Result<Counted, Fault>
    ensures { IfOk result (λ counted. GainsSome (W.contents output.old) (W.contents output.new) (λ text.
        PacketPrints options.now (arrival_of arrival.now) (kept_of kept.old) text counted (kept_of kept.new))) }
{
    // By reference: to move what was found costs a run of the program 3 % of its instructions.
    match &look(&options.ports, arrival.record, arrival.octets) {
        Finding::Sight(sight) => {
            let outcome = show_sight(options, output, alloc, &mut kept.session, arrival, sight)?;
            Ok(Counted::alone(outcome))
        }
        Finding::Fragment(path, fragment) => {
            let counted = show_fragment(options, output, alloc, kept, arrival, path, fragment)?;
            Ok(counted)
        }
    }
}

// Puts a fragment to those that are kept, and prints the datagram that is then whole, or why the fragment is refused.
#[inline(never)]
fn show_fragment<W: Write>(
    options: &Options,
    output: &mut W,
    alloc: Global,
    kept: &mut Kept,
    arrival: &Arrival<'_>,
    path: &Path<'_>,
    fragment: &Fragment<'_>,
) -> Result<Counted, Fault>
    ensures { IfOk result (λ counted. GainsSome (W.contents output.old) (W.contents output.new) (λ text.
        FragmentAdds options.now (arrival_of arrival.now) (path_of path.now) (value_of fragment.now) (kept_of kept.old)
        text counted (kept_of kept.new))) }
{
    let number = arrival.record.number;
    let Ok(answer) = kept.fragments.add(alloc, number, fragment) else {
        return Err(Fault::Memory);
    };
    let session = &mut kept.session;
    match &answer {
        Answer::Incomplete(_) => Ok(Counted::alone(Outcome::Kept(protocol_category(
            fragment.protocol,
        )))),
        Answer::Refused(refusal) => {
            let refusal = Refusal::Fragment(*refusal);
            let outcome = show_refused(
                options, output, alloc, session, arrival, path, fragment, refusal,
            )?;
            Ok(Counted::alone(outcome))
        }
        Answer::Whole(whole) => {
            let counted = show_whole(options, output, alloc, session, arrival, path, whole)?;
            Ok(counted)
        }
    }
}

// Prints why a fragment is refused.
fn show_refused<W: Write>(
    options: &Options,
    output: &mut W,
    alloc: Global,
    session: &mut Session,
    arrival: &Arrival<'_>,
    path: &Path<'_>,
    fragment: &Fragment<'_>,
    refusal: Refusal,
) -> Result<Outcome, Fault>
    ensures { IfOk result (λ outcome. GainsSome (W.contents output.old) (W.contents output.new) (λ text.
        SightPrints options.now (arrival_of arrival.now)
        (refused_fragment options.now.ports (path_of path.now) (value_of fragment.now) refusal)
        (session_of session.old) text outcome (session_of session.new))) }
{
    let sight = refused_fragment(&options.ports, path, fragment, refusal);
    show_sight(options, output, alloc, session, arrival, &sight)
}

// Prints a datagram that was put together with a packet.
fn show_whole<W: Write>(
    options: &Options,
    output: &mut W,
    alloc: Global,
    session: &mut Session,
    arrival: &Arrival<'_>,
    path: &Path<'_>,
    whole: &Whole,
) -> Result<Counted, Fault>
    ensures { IfOk result (λ counted. GainsSome (W.contents output.old) (W.contents output.new) (λ text.
        WholePrints options.now (arrival_of arrival.now) (path_of path.now) (whole_of whole.now)
        (session_of session.old) text counted (session_of session.new))) }
{
    let path = Path {
        tags: path.tags,
        tunnels: path.tunnels,
        frames: whole.numbers.as_slice(),
    };
    let sight = look_at_joined(&options.ports, arrival.record, arrival.octets, &path, whole);
    let outcome = show_sight(options, output, alloc, session, arrival, &sight)?;
    Ok(Counted {
        outcome,
        joined: all_but_one(whole.numbers.as_slice()),
    })
}

// How many of these packets came before the last one.
fn all_but_one(numbers: &[u64]) -> u64
    ensures { result ≡ length numbers.now - 1 }
{
    (numbers.len() as u64).saturating_sub(1)
}

// Prints a packet by what its headers tell, and returns its outcome.
fn show_sight<W: Write>(
    options: &Options,
    output: &mut W,
    alloc: Global,
    session: &mut Session,
    arrival: &Arrival<'_>,
    sight: &Sight<'_>,
) -> Result<Outcome, Fault>
    ensures { IfOk result (λ outcome. GainsSome (W.contents output.old) (W.contents output.new) (λ text.
        SightPrints options.now (arrival_of arrival.now) (sight_of sight.now) (session_of session.old) text outcome
        (session_of session.new))) }
{
    match sight {
        Sight::Unread => Ok(Outcome::Unread),
        Sight::Other(category) => Ok(Outcome::Other(*category)),
        Sight::Control(headers) => show_control(options, output, alloc, session, arrival, headers),
        Sight::Segment(segment) => show_segment(options, output, alloc, session, arrival, segment),
    }
}

// Prints each message in a segment.
#[inline(never)]
fn show_segment<W: Write>(
    options: &Options,
    output: &mut W,
    alloc: Global,
    session: &mut Session,
    arrival: &Arrival<'_>,
    segment: &Segment<'_>,
) -> Result<Outcome, Fault>
    ensures { IfOk result (λ outcome. GainsSome (W.contents output.old) (W.contents output.new) (λ text.
        EachPrints options.now (arrival_of arrival.now) (stream_of segment.now) Passed (session_of session.old)
        (messages_of segment.now.messages) text outcome (session_of session.new))) }
{
    let mut messages = segment.messages.messages();
    let mut outcome = Outcome::Passed;
    while let Some(message) = messages.next() {
        let headers = segment.headers(message);
        let own = show_control(options, output, alloc, session, arrival, &headers)?;
        outcome = joined_outcome(outcome, own);
    }
    Ok(outcome)
}

// What becomes of a packet with several messages, after some and one more.
fn joined_outcome(so_far: Outcome, next: Outcome) -> Outcome
    ensures { result ≡ joined_outcome so_far next }
{
    match (so_far, next) {
        (Outcome::Passed, next) => next,
        (Outcome::Listed(_), Outcome::Refused(kind, reason)) => Outcome::Refused(kind, reason),
        (so_far, _) => so_far,
    }
}
