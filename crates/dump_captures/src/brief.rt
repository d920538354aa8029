//! A control packet on a line.

#![tactic(auto, using(crate::proofs::Rows::texts))]

ghost use Rattle.std.specs.Prelude.{◌≡◌, IfOk, None, OnOk};
ghost use Rattle.message_fields.specs.Checksums.{value_of};
ghost use Rattle.packet_fields.specs.Output.{Gains, GainsSome};
ghost use Rattle.dump_captures.specs.Arrival.{arrival_of};
ghost use Rattle.dump_captures.specs.Brief.{ContentSays, PacketSays, WholeSays, brief_front, checksum_word};
ghost use Rattle.dump_captures.specs.Brief.{header_word};
ghost use Rattle.dump_captures.specs.Brief.{kind_word, refused_words};
ghost use Rattle.dump_captures.specs.Content.{content_of, whole};
ghost use Rattle.dump_captures.specs.Pairing.{after_word, answer_words};
ghost use Rattle.dump_captures.specs.Sight.{headers_of};
ghost use Rattle.dump_captures.specs.private.Kept.{session_of};
ghost use Rattle.dump_captures.specs.private.Shown.{IsShownInBrief};

use crate::Fault;
use crate::arrival::Arrival;
use crate::color::{RED, begin_color, end_color};
use crate::content::Content;
use crate::heading::{show_addresses, show_time, show_way};
use crate::kind::Reason;
use crate::options::Options;
use crate::printed::reason_alone;
use crate::refusal::Refusal;
use crate::session::Session;
use crate::sight::Headers;
use crate::time::Clock;
use crate::verbose::show_more;
use message_brief::{show_brief, show_cut_brief};
use message_fields::{ChecksumState, Message};
use packet_fields::Form;
use packet_fields::value::Value;
use packet_pairs::{Answered, Nanoseconds};
use std::alloc::Global;
use std::io;
use std::io::Write;

/// Prints a control packet on a line. Never inlined: a part of `show_control` it makes the other forms slower.
#[inline(never)]
pub(crate) fn show_line<W: Write>(
    options: &Options,
    output: &mut W,
    alloc: Global,
    session: &mut Session,
    arrival: &Arrival<'_>,
    headers: &Headers<'_>,
) -> Result<Option<Reason>, Fault>
    ensures { IfOk result (λ why. GainsSome (W.contents output.old) (W.contents output.new)
        (IsShownInBrief options.now (arrival_of arrival.now) (headers_of headers.now) (session_of session.old) why
        (session_of session.new))) }
{
    let why = reason_alone(options, alloc, headers)?;
    let answer = session.see(options, alloc, arrival, headers, why)?;
    let is_red = options.is_red(why);
    begin_color(output, is_red, RED)?;
    show_front(
        output,
        &mut session.clock,
        options.is_verbose,
        arrival,
        headers,
    )?;
    show_packet(output, alloc, options.is_strict, headers)?;
    show_answer(output, answer)?;
    end_color(output, is_red)?;
    output.write_all(b"\n")?;
    Ok(why)
}

// Prints what stands before what the packet says.
fn show_front<W: Write>(
    output: &mut W,
    clock: &mut Clock,
    is_verbose: bool,
    arrival: &Arrival<'_>,
    headers: &Headers<'_>,
) -> io::Result<()>
    ensures { OnOk result (Gains (W.contents output.old) (W.contents output.new)
        (brief_front is_verbose (arrival_of arrival.now) (headers_of headers.now))) }
{
    arrival.record.number.put(output, Form::Lines)?;
    output.write_all(b" ")?;
    show_time(output, clock, arrival.when)?;
    show_addresses(output, headers.addresses, None)?;
    show_more(output, is_verbose, arrival, headers)?;
    show_way(output, headers)
}

// Prints what a packet says, behind the checksum of the IPv4 header, where it is wrong.
fn show_packet<W: Write>(
    output: &mut W,
    alloc: Global,
    is_strict: bool,
    headers: &Headers<'_>,
) -> io::Result<()>
    ensures { OnOk result (GainsSome (W.contents output.old) (W.contents output.new)
        (PacketSays is_strict (headers_of headers.now))) }
{
    if headers.is_header_refused(is_strict) {
        return show_refused(output, alloc, &headers.content, &Refusal::Header);
    }
    show_header(output, headers.is_header_bad)?;
    show_content(output, alloc, is_strict, &headers.content)
}

// Prints that the checksum of the IPv4 header is wrong, where it is.
fn show_header<W: Write>(output: &mut W, is_bad: bool) -> io::Result<()>
    ensures { OnOk result (Gains (W.contents output.old) (W.contents output.new) (header_word is_bad)) }
{
    if !is_bad {
        return Ok(());
    }
    output.write_all(b" ip_checksum=bad")
}

// Prints what a packet says.
fn show_content<W: Write>(
    output: &mut W,
    alloc: Global,
    is_strict: bool,
    content: &Content<'_>,
) -> io::Result<()>
    ensures { OnOk result (GainsSome (W.contents output.old) (W.contents output.new)
        (ContentSays is_strict (content_of content.now))) }
{
    match content {
        Content::Whole(message) => show_whole(output, alloc, is_strict, content, message),
        Content::Cut(message, _, _) => {
            show_kind(output, content)?;
            show_cut_brief(output, message)
        }
        Content::Refused(_, _, refusal) => show_refused(output, alloc, content, refusal),
    }
}

// Prints what the message of a whole datagram says, or that it is refused for its checksum.
fn show_whole<W: Write>(
    output: &mut W,
    alloc: Global,
    is_strict: bool,
    content: &Content<'_>,
    message: &Message<'_>,
) -> io::Result<()>
    requires { content_of content.now ≡ whole (value_of message.now) }
    ensures { OnOk result (GainsSome (W.contents output.old) (W.contents output.new)
        (WholeSays is_strict (value_of message.now))) }
{
    let state = message.checksum();
    if state.is_refused(is_strict) {
        let refusal = Refusal::Message(message_fields::Refusal::Checksum);
        return show_refused(output, alloc, content, &refusal);
    }
    show_checksum(output, state)?;
    show_kind(output, content)?;
    show_brief(output, message)
}

// Prints that a checksum does not hold, where it is so.
fn show_checksum<W: Write>(output: &mut W, state: ChecksumState) -> io::Result<()>
    ensures { OnOk result (Gains (W.contents output.old) (W.contents output.new) (checksum_word state)) }
{
    match state {
        ChecksumState::Bad => output.write_all(b" checksum=bad"),
        _ => Ok(()),
    }
}

// Prints the kind of a packet.
fn show_kind<W: Write>(output: &mut W, content: &Content<'_>) -> io::Result<()>
    ensures { OnOk result (Gains (W.contents output.old) (W.contents output.new) (kind_word (content_of content.now))) }
{
    output.write_all(b" ")?;
    content.kind().name().put(output, Form::Lines)
}

// Prints why a packet is refused.
fn show_refused<W: Write>(
    output: &mut W,
    alloc: Global,
    content: &Content<'_>,
    refusal: &Refusal,
) -> io::Result<()>
    ensures { OnOk result (Gains (W.contents output.old) (W.contents output.new)
        (refused_words (content_of content.now) refusal.now)) }
{
    let phrase = refusal.to_string(alloc)?;
    show_kind(output, content)?;
    output.write_all(b" refused=")?;
    phrase.as_str().put(output, Form::Lines)
}

// Prints what a packet answers.
fn show_answer<W: Write>(output: &mut W, answer: Option<Answered>) -> io::Result<()>
    ensures { OnOk result (Gains (W.contents output.old) (W.contents output.new) (answer_words answer)) }
{
    let Some(answered) = answer else {
        return Ok(());
    };
    output.write_all(b" answers=")?;
    answered.number.put(output, Form::Lines)?;
    show_after(output, answered.after)
}

// Prints the time from a question to its answer, where it is known.
fn show_after<W: Write>(output: &mut W, after: Option<u64>) -> io::Result<()>
    ensures { OnOk result (Gains (W.contents output.old) (W.contents output.new) (after_word after)) }
{
    let Some(nanoseconds) = after else {
        return Ok(());
    };
    output.write_all(b" after=")?;
    Nanoseconds(nanoseconds).put(output, Form::Lines)
}
