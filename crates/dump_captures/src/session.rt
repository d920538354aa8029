//! What is kept from message to message.

ghost use Rattle.std.specs.Prelude.{◌≡◌, IfOk};
ghost use Rattle.std.specs.Option.{option_map};
ghost use Rattle.message_fields.specs.Checksums.{value_of};
ghost use Rattle.dump_captures.specs.Arrival.{arrival_of};
ghost use Rattle.dump_captures.specs.Content.{content_of};
ghost use Rattle.dump_captures.specs.Pairing.{MessageAnswers, is_checksum, message_in};
ghost use Rattle.dump_captures.specs.Session.{CountsIf, IsSeen, MessageIsSeen, after_in, is_looked_at, new_session};
ghost use Rattle.dump_captures.specs.Sight.{headers_of};
ghost use Rattle.dump_captures.specs.private.Kept.{session_of};

use crate::Fault;
use crate::arrival::Arrival;
use crate::content::Content;
use crate::kind::Reason;
use crate::options::Options;
use crate::sight::Headers;
use crate::time::Clock;
use frame_wire::Addresses;
use message_fields::Message;
use packet_pairs::{Answered, Pairs, exchange_of};
use packet_stats::Stats;
use std::alloc::Global;

/// What is kept from message to message: the clock, the questions that wait for an answer, and what messages said.
#[derive(Drop)]
pub struct Session {
    /// The clock.
    pub clock: Clock,
    /// The questions.
    pub pairs: Pairs,
    /// What messages said.
    pub stats: Stats,
}

impl Session {
    /// Before the first message.
    pub(crate) fn new(alloc: Global) -> Session
        ensures { session_of result ≡ new_session }
    {
        Session {
            clock: Clock::new(),
            pairs: Pairs::new(alloc),
            stats: Stats::new(alloc),
        }
    }

    /// Sees a packet that is refused or read in part for this reason, if it is, and returns the question that it
    /// answers, where it answers one.
    #[inline]
    pub(crate) fn see(
        &mut self,
        options: &Options,
        alloc: Global,
        arrival: &Arrival<'_>,
        headers: &Headers<'_>,
        why: Option<Reason>,
    ) -> Result<Option<Answered>, Fault>
        ensures { IfOk result (λ answer. IsSeen options.now (arrival_of arrival.now) (headers_of headers.now) why
            (session_of self.old) answer (session_of self.new)) }
    {
        if !is_looked_at(options, why) {
            return Ok(None);
        }
        match (message_in(&headers.content), &headers.addresses) {
            (Some(message), Some(addresses)) => {
                self.see_message(options, alloc, arrival, message, addresses)
            }
            _ => Ok(None),
        }
    }

    // Sees a message between these addresses.
    #[inline(never)]
    fn see_message(
        &mut self,
        options: &Options,
        alloc: Global,
        arrival: &Arrival<'_>,
        message: &Message<'_>,
        addresses: &Addresses,
    ) -> Result<Option<Answered>, Fault>
        ensures { IfOk result (λ answer. MessageIsSeen options.now (arrival_of arrival.now) (value_of message.now)
            addresses.now (session_of self.old) answer (session_of self.new)) }
    {
        let answer = self.pair(arrival, message, addresses)?;
        self.count(options.stats, alloc, message, addresses, after_in(answer))?;
        Ok(answer)
    }

    // Looks for the question that a message answers, and keeps the one that it asks.
    fn pair(
        &mut self,
        arrival: &Arrival<'_>,
        message: &Message<'_>,
        addresses: &Addresses,
    ) -> Result<Option<Answered>, Fault>
        ensures answers { IfOk result (λ answer. MessageAnswers (arrival_of arrival.now) (value_of message.now)
            addresses.now (session_of self.old).questions answer (session_of self.new).questions) }
        ensures counts { (session_of self.new).counts ≡ (session_of self.old).counts }
    {
        let Some(exchange) = exchange_of(message, addresses) else {
            return Ok(None);
        };
        let time = arrival.nanoseconds();
        match self.pairs.see(arrival.record.number, time, exchange) {
            Ok(answer) => Ok(answer),
            Err(_) => Err(Fault::Memory),
        }
    }

    // Counts what a message says, where that is asked for.
    fn count(
        &mut self,
        is_counted: bool,
        alloc: Global,
        message: &Message<'_>,
        addresses: &Addresses,
        after: Option<u64>,
    ) -> Result<(), Fault>
        ensures counts { IfOk result (λ done. CountsIf is_counted (value_of message.now) addresses.now after
            (session_of self.old).counts (session_of self.new).counts) }
        ensures questions { (session_of self.new).questions ≡ (session_of self.old).questions }
    {
        if !is_counted {
            return Ok(());
        }
        match self.stats.count(alloc, message, addresses, after) {
            Ok(()) => Ok(()),
            Err(_) => Err(Fault::Memory),
        }
    }
}

// The time from a question to its answer, where it is known.
fn after_in(answer: Option<Answered>) -> Option<u64>
    ensures { result ≡ after_in answer }
{
    match answer {
        Some(answered) => answered.after,
        None => None,
    }
}

// The message of a packet, whole or in part, where it has one.
fn message_in<'c, 'a>(content: &'c Content<'a>) -> Option<&'c Message<'a>>
    ensures { option_map (λ message. value_of message.now) result ≡ message_in (content_of content.now) }
{
    match content {
        Content::Whole(message) | Content::Cut(message, _, _) => Some(message),
        Content::Refused(_, _, _) => None,
    }
}

// Whether messages are looked at, and a packet is not refused for a checksum.
fn is_looked_at(options: &Options, why: Option<Reason>) -> bool
    ensures { result ≡ is_looked_at options.now why }
{
    (options.pairs || options.stats) && !(options.is_strict && is_checksum(why))
}

fn is_checksum(why: Option<Reason>) -> bool
    ensures { result ≡ is_checksum why }
{
    matches!(why, Some(Reason::Checksum))
}
