//! Messages of DNS, of multicast DNS and of LLMNR.

ghost use Rattle.std.specs.Prelude.{OnErr, OnOk};
ghost use Rattle.wirebase.specs.Bytes.{Reaches};
ghost use Rattle.dns_wire.specs.DnsPacket.{header, view_octets};
ghost use Rattle.record_wire.specs.Record.{question_of};
ghost use Rattle.packet_stats.specs.Dns.{AreQuestions, Asks, DnsSays, response_of};
ghost use Rattle.packet_stats.specs.Stats.{CountsAll, CountsPart, CountsSome, CountsThat, state_of};

use crate::names::lowered;
use crate::row::Mention;
use crate::stats::Stats;
use crate::subject::{IpAddress, Subject};
use crate::table::Fault;
use dns_fields::header::{rcode_of, word_of};
use dns_wire::dns::Packet;
use record_wire::{Name, Question};
use std::alloc::Global;

// The flag of a response.
const RESPONSE: u16 = 0x8000;

impl Stats {
    // Counts what a message from an address says.
    pub(crate) fn count_dns(
        &mut self,
        alloc: Global,
        source: IpAddress,
        after: Option<u64>,
        octets: &[u8],
    ) -> Result<(), Fault>
        ensures counts { OnOk result (CountsThat (DnsSays source after octets.now)
            (state_of self.old) (state_of self.new)) }
        ensures fault { OnErr result (CountsPart (DnsSays source after octets.now)
            (state_of self.old) (state_of self.new)) }
    {
        let packet = match Packet::new_checked(octets) {
            Ok(packet) => packet,
            Err(_) => return Ok(()),
        };
        if word_of(octets) < RESPONSE {
            return self.count_questions(alloc, &packet);
        }
        self.count_response(alloc, source, after, octets)
    }

    // Counts the outcome and the server of a response.
    fn count_response(
        &mut self,
        alloc: Global,
        source: IpAddress,
        after: Option<u64>,
        octets: &[u8],
    ) -> Result<(), Fault>
        requires { Reaches header octets.now }
        ensures counts { OnOk result (CountsAll (state_of self.old) (response_of source after octets.now)
            (state_of self.new)) }
        ensures fault { OnErr result (CountsSome (state_of self.old) (response_of source after octets.now)
            (state_of self.new)) }
    {
        self.mention(
            alloc,
            Mention {
                subject: Subject::Rcode(rcode_of(word_of(octets))),
                after: None,
            },
        )?;
        self.mention(
            alloc,
            Mention {
                subject: Subject::Server(source),
                after,
            },
        )
    }

    // Counts the questions of a query.
    fn count_questions(&mut self, alloc: Global, packet: &Packet<&[u8]>) -> Result<(), Fault>
        requires { Reaches header (view_octets packet.now) }
        ensures counts { OnOk result (CountsThat (AreQuestions (view_octets packet.now))
            (state_of self.old) (state_of self.new)) }
        ensures fault { OnErr result (CountsPart (AreQuestions (view_octets packet.now))
            (state_of self.old) (state_of self.new)) }
    {
        let mut more = packet.question_count();
        let mut left = packet.payload();
        while more > 0 {
            match Question::parse(left) {
                Ok((rest, question)) => {
                    self.count_question(alloc, packet, &question)?;
                    left = rest;
                    more -= 1;
                }
                Err(_) => return Ok(()),
            }
        }
        Ok(())
    }

    // Counts a question, where its name can be read.
    fn count_question<'a>(
        &mut self,
        alloc: Global,
        packet: &Packet<&'a [u8]>,
        question: &Question<'a>,
    ) -> Result<(), Fault>
        ensures counts { OnOk result (CountsThat (Asks (view_octets packet.now) (question_of question.now))
            (state_of self.old) (state_of self.new)) }
        ensures fault { OnErr result (CountsPart (Asks (view_octets packet.now) (question_of question.now))
            (state_of self.old) (state_of self.new)) }
    {
        match Name::read(packet, question.name) {
            Ok(name) => self.mention(
                alloc,
                Mention {
                    subject: Subject::Question(lowered(&name), question.type_),
                    after: None,
                },
            ),
            Err(_) => Ok(()),
        }
    }
}
