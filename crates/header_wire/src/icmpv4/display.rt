//! What messages and their refusals print.

ghost use Rattle.std.specs.Prelude.{Some};
ghost use Rattle.header_wire.specs.Icmpv4.{value_of, advert_of};
ghost use Rattle.header_wire.specs.Icmpv4Display.{times_display, mask_display, advert_display, message_display};
ghost use Rattle.header_wire.specs.Icmpv4Display.{refusal_display};

use super::{AddressMask, Message, Refusal, RouterAdvertisement, Timestamp};
use std::fmt;

/// The numbers and the times.
impl fmt::Display for Timestamp {
    ghost output = { λ times. Some (times_display times) };

    fn fmt<W: fmt::Write>(&self, f: &mut fmt::Formatter<W>) -> fmt::Result {
        let ident = self.ident;
        let seq_no = self.seq_no;
        let originate = self.originate;
        let receive = self.receive;
        let transmit = self.transmit;
        write!(
            f,
            "id={ident} seq={seq_no} originate={originate} receive={receive} transmit={transmit}"
        )
    }
}

/// The numbers and the mask.
impl fmt::Display for AddressMask {
    ghost output = { λ mask. Some (mask_display mask) };

    fn fmt<W: fmt::Write>(&self, f: &mut fmt::Formatter<W>) -> fmt::Result {
        let ident = self.ident;
        let seq_no = self.seq_no;
        let mask = self.mask;
        write!(f, "id={ident} seq={seq_no} mask={mask}")
    }
}

/// The lifetime and the number of routers.
impl fmt::Display for RouterAdvertisement<'_> {
    ghost output = { λ advertisement. Some (advert_display (advert_of advertisement)) };

    fn fmt<W: fmt::Write>(&self, f: &mut fmt::Formatter<W>) -> fmt::Result {
        let lifetime = self.lifetime;
        let routers = self.routers.len();
        write!(f, "lifetime={lifetime} routers={routers}")
    }
}

/// The type by its name, and what the message says.
impl fmt::Display for Message<'_> {
    ghost output = { λ message. Some (message_display (value_of message)) };

    fn fmt<W: fmt::Write>(&self, f: &mut fmt::Formatter<W>) -> fmt::Result {
        match self {
            Message::Timestamp(times) => write!(f, "ICMPv4 timestamp {times}"),
            Message::TimestampReply(times) => write!(f, "ICMPv4 timestamp reply {times}"),
            Message::AddressMaskRequest(mask) => write!(f, "ICMPv4 address mask request {mask}"),
            Message::AddressMaskReply(mask) => write!(f, "ICMPv4 address mask reply {mask}"),
            Message::RouterSolicitation => write!(f, "ICMPv4 router solicitation"),
            Message::RouterAdvertisement(advertisement) => {
                write!(f, "ICMPv4 router advertisement {advertisement}")
            }
            Message::ExtendedEchoRequest(request) => {
                write!(f, "ICMPv4 extended echo request {request}")
            }
            Message::ExtendedEchoReply(reply) => write!(f, "ICMPv4 extended echo reply {reply}"),
        }
    }
}

/// The reason, as a phrase.
impl fmt::Display for Refusal {
    ghost output = { λ refusal. Some (refusal_display refusal) };

    fn fmt<W: fmt::Write>(&self, f: &mut fmt::Formatter<W>) -> fmt::Result {
        match self {
            Refusal::Short => write!(f, "fewer than 8 bytes"),
            Refusal::Checksum => write!(f, "the checksum does not hold"),
            Refusal::UnknownType(number) => write!(f, "type {number} is not read"),
            Refusal::Code(code) => write!(f, "code {code} is not 0"),
            Refusal::Length => write!(f, "fewer bytes than a message of this type has"),
            Refusal::NoRouters => write!(f, "an advertisement of no routers"),
            Refusal::EntrySize(words) => write!(f, "entries of {words} words are below 2"),
            Refusal::Cut => write!(f, "the routers of an advertisement are cut short"),
        }
    }
}
