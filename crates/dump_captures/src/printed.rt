//! A control packet in the form that is asked for.

ghost use Rattle.std.specs.Prelude.{◌≡◌, ◌<◌, ◌^◌, [], List, Option, IfOk, true};
ghost use Rattle.packet_fields.specs.Output.{GainsSome};
ghost use Rattle.packet_fields.specs.Fields.{Item};
ghost use Rattle.dump_captures.specs.Arrival.{arrival_of};
ghost use Rattle.dump_captures.specs.Content.{content_of, kind_in};
ghost use Rattle.dump_captures.specs.Dump.{HeadersPrint, outcome_of};
ghost use Rattle.dump_captures.specs.Messages.{ListingIs};
ghost use Rattle.dump_captures.specs.Sight.{headers_of};
ghost use Rattle.dump_captures.specs.declared.kind.Reason.{Reason as AnyReason};
ghost use Rattle.dump_captures.specs.private.Kept.{session_of};
ghost use Rattle.dump_captures.specs.private.Shown.{IsShown, IsShownAtLength};

use crate::Fault;
use crate::arrival::Arrival;
use crate::brief::show_line;
use crate::heading::show_heading;
use crate::kind::{Kind, Reason};
use crate::members::show_members;
use crate::messages::show_listing;
use crate::objects::{close_object, open_object};
use crate::options::Options;
use crate::pairing::show_answer;
use crate::session::Session;
use crate::sight::Headers;
use crate::tally::Outcome;
use packet_fields::Form;
use std::alloc::Global;
use std::io;
use std::io::Write;

/// Prints a control packet that has these headers. Never inlined: a part of `show_packet` it costs a run of the program
/// 0.7 % of its instructions.
#[inline(never)]
pub(crate) fn show_control<W: Write>(
    options: &Options,
    output: &mut W,
    alloc: Global,
    session: &mut Session,
    arrival: &Arrival<'_>,
    headers: &Headers<'_>,
) -> Result<Outcome, Fault>
    ensures { IfOk result (λ outcome. GainsSome (W.contents output.old) (W.contents output.new) (λ text.
        HeadersPrint options.now (arrival_of arrival.now) (headers_of headers.now) (session_of session.old) text
        outcome (session_of session.new))) }
{
    if !options.chooses(headers) {
        return Ok(Outcome::Passed);
    }
    if !options.prints {
        return count_alone(options, alloc, headers);
    }
    let why = show_chosen(options, output, alloc, session, arrival, headers)?;
    Ok(outcome(headers.content.kind(), why))
}

// Prints a control packet.
fn show_chosen<W: Write>(
    options: &Options,
    output: &mut W,
    alloc: Global,
    session: &mut Session,
    arrival: &Arrival<'_>,
    headers: &Headers<'_>,
) -> Result<Option<Reason>, Fault>
    ensures { IfOk result (λ why. GainsSome (W.contents output.old) (W.contents output.new)
        (IsShown options.now (arrival_of arrival.now) (headers_of headers.now) (session_of session.old) why
        (session_of session.new))) }
{
    if options.stats {
        return see_alone(options, alloc, session, arrival, headers);
    }
    match options.form {
        Form::Json => show_object(options, output, alloc, session, arrival, headers),
        Form::Lines if options.is_brief => {
            show_line(options, output, alloc, session, arrival, headers)
        }
        Form::Lines => show_lines(options, output, alloc, session, arrival, headers),
    }
}

// Sees a control packet that is not printed, but counted in a page.
fn see_alone(
    options: &Options,
    alloc: Global,
    session: &mut Session,
    arrival: &Arrival<'_>,
    headers: &Headers<'_>,
) -> Result<Option<Reason>, Fault>
    requires { options.now.stats ≡ true }
    ensures { IfOk result (λ why. IsShown options.now (arrival_of arrival.now) (headers_of headers.now)
        (session_of session.old) why (session_of session.new) []) }
{
    let reason = reason_alone(options, alloc, headers)?;
    session.see(options, alloc, arrival, headers, reason)?;
    Ok(reason)
}

// Prints a control packet in lines.
fn show_lines<W: Write>(
    options: &Options,
    output: &mut W,
    alloc: Global,
    session: &mut Session,
    arrival: &Arrival<'_>,
    headers: &Headers<'_>,
) -> Result<Option<Reason>, Fault>
    requires { options.now.form ≡ Form.Lines }
    ensures { IfOk result (λ why. GainsSome (W.contents output.old) (W.contents output.new)
        (IsShownAtLength options.now (arrival_of arrival.now) (headers_of headers.now) (session_of session.old) why
        (session_of session.new))) }
{
    show_heading(output, &mut session.clock, options, arrival, headers)?;
    let why = show_listing(options, output, alloc, headers)?;
    let answer = session.see(options, alloc, arrival, headers, why)?;
    show_answer(output, Form::Lines, answer)?;
    Ok(why)
}

// Prints a control packet as an object of JSON, on a line.
fn show_object<W: Write>(
    options: &Options,
    output: &mut W,
    alloc: Global,
    session: &mut Session,
    arrival: &Arrival<'_>,
    headers: &Headers<'_>,
) -> Result<Option<Reason>, Fault>
    requires { options.now.form ≡ Form.Json }
    ensures { IfOk result (λ why. GainsSome (W.contents output.old) (W.contents output.new)
        (IsShownAtLength options.now (arrival_of arrival.now) (headers_of headers.now) (session_of session.old) why
        (session_of session.new))) }
{
    is_small(arrival.record.number);
    open_object(output, "number", arrival.record.number)?;
    show_members(output, &mut session.clock, arrival, headers)?;
    let why = show_listing(options, output, alloc, headers)?;
    let answer = session.see(options, alloc, arrival, headers, why)?;
    show_answer(output, Form::Json, answer)?;
    close_object(output)?;
    Ok(why)
}

// The number of a packet has 64 bits. For proofs alone.
fn is_small(number: u64)
    ensures { number < 2 ^ 64 }
{}

// Reads a control packet that is only counted.
fn count_alone(options: &Options, alloc: Global, headers: &Headers<'_>) -> Result<Outcome, Fault>
    ensures { IfOk result (λ outcome. (items : List Item) × (why : Option AnyReason)
        × ListingIs options.now (headers_of headers.now) items why × (outcome
        ≡ outcome_of (kind_in (content_of headers.now.content)) why)) }
{
    let why = reason_alone(options, alloc, headers)?;
    Ok(outcome(headers.content.kind(), why))
}

/// Why a control packet is refused or read in part, if it is, by its listing.
pub(crate) fn reason_alone(
    options: &Options,
    alloc: Global,
    headers: &Headers<'_>,
) -> Result<Option<Reason>, Fault>
    ensures { IfOk result (λ why. (items : List Item) × ListingIs options.now (headers_of headers.now) items why) }
{
    show_listing(options, &mut io::sink(), alloc, headers)
}

// The outcome for a control packet.
fn outcome(kind: Kind, why: Option<Reason>) -> Outcome
    ensures { result ≡ outcome_of kind why }
{
    match why {
        Some(reason) => Outcome::Refused(kind, reason),
        None => Outcome::Listed(kind),
    }
}
