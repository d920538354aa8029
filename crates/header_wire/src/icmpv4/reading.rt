//! Messages read from octets.

ghost use Rattle.std.specs.Prelude.{◌≡◌, ◌≤◌, length, IfOk, IfErr, IsOkAnd};
ghost use Rattle.wirebase.specs.Checks.{Fails, Passes};
ghost use Rattle.header_wire.specs.Icmpv4.{Value, value_of, IsMessage, Refuses, IsContent, kind_in, kind_checks};
ghost use Rattle.header_wire.specs.Icmpv4.{fixed_checks, IsTimestamp, IsAddressMask, IsAdvertisement, advert_of};
ghost use Rattle.header_wire.specs.Icmpv4.{advert_checks};

use super::routers::ENTRY_WORDS;
use super::{
    AddressMask, Kind, Message, Refusal, RouterAdvertisement, Routers, Timestamp, field,
    kind_numbered,
};
use crate::extended_echo;
use wirebase::{Ipv4Address, Octets, checksum};

// The message that these octets are.
pub(super) fn read(octets: &[u8]) -> Result<Message<'_>, Refusal>
    ensures sound { IfOk result (λ message. IsMessage octets.now (value_of message)) }
    ensures complete { (value : Value) → IsMessage octets.now value
        → IsOkAnd result (λ message. value_of message ≡ value) }
    ensures told { IfErr result (Refuses octets.now) }
{
    if octets.len() < field::HEADER_END {
        return Err(Refusal::Short);
    }
    if !checksum::is_good(octets, 0) {
        return Err(Refusal::Checksum);
    }
    read_content(octets)
}

// What the octets say, whose checksum is good.
fn read_content(octets: &[u8]) -> Result<Message<'_>, Refusal>
    requires { 8 ≤ length octets.now }
    ensures sound { IfOk result (λ message. IsContent octets.now (value_of message)) }
    ensures passes { IfOk result (λ message. Passes (kind_checks octets.now (kind_in octets.now))) }
    ensures told { IfErr result (Fails (kind_checks octets.now (kind_in octets.now))) }
{
    let number = octets[0];
    match kind_numbered(number) {
        Some(Kind::Timestamp) => Ok(Message::Timestamp(read_timestamp(octets)?)),
        Some(Kind::TimestampReply) => Ok(Message::TimestampReply(read_timestamp(octets)?)),
        Some(Kind::AddressMaskRequest) => Ok(Message::AddressMaskRequest(read_mask(octets)?)),
        Some(Kind::AddressMaskReply) => Ok(Message::AddressMaskReply(read_mask(octets)?)),
        Some(Kind::RouterSolicitation) => {
            check_fixed(octets, field::HEADER_END)?;
            Ok(Message::RouterSolicitation)
        }
        Some(Kind::RouterAdvertisement) => {
            Ok(Message::RouterAdvertisement(read_advertisement(octets)?))
        }
        Some(Kind::ExtendedEchoRequest) => {
            Ok(Message::ExtendedEchoRequest(extended_echo::read_request(octets)))
        }
        Some(Kind::ExtendedEchoReply) => {
            Ok(Message::ExtendedEchoReply(extended_echo::read_reply(octets)))
        }
        None => Err(Refusal::UnknownType(number)),
    }
}

// Refused where the code is not 0, or the octets are fewer than `len`.
fn check_fixed(octets: &[u8], len: usize) -> Result<(), Refusal>
    requires { 2 ≤ length octets.now }
    ensures passes { IfOk result (λ unit. Passes (fixed_checks len octets.now)) }
    ensures told { IfErr result (Fails (fixed_checks len octets.now)) }
{
    let code = octets[field::CODE];
    if code != 0 {
        return Err(Refusal::Code(code));
    }
    if octets.len() < len {
        return Err(Refusal::Length);
    }
    Ok(())
}

// The times of a request or an answer.
fn read_timestamp(octets: &[u8]) -> Result<Timestamp, Refusal>
    requires { 8 ≤ length octets.now }
    ensures sound { IfOk result (IsTimestamp octets.now) }
    ensures passes { IfOk result (λ timestamp. Passes (fixed_checks 20 octets.now)) }
    ensures told { IfErr result (Fails (fixed_checks 20 octets.now)) }
{
    check_fixed(octets, field::TRANSMIT.end)?;
    Ok(Timestamp {
        ident: octets.u16_at(field::IDENT),
        seq_no: octets.u16_at(field::SEQ_NO),
        originate: octets.u32_at(field::ORIGINATE),
        receive: octets.u32_at(field::RECEIVE),
        transmit: octets.u32_at(field::TRANSMIT),
    })
}

// The address mask of a request or an answer.
fn read_mask(octets: &[u8]) -> Result<AddressMask, Refusal>
    requires { 8 ≤ length octets.now }
    ensures sound { IfOk result (IsAddressMask octets.now) }
    ensures passes { IfOk result (λ mask. Passes (fixed_checks 12 octets.now)) }
    ensures told { IfErr result (Fails (fixed_checks 12 octets.now)) }
{
    check_fixed(octets, field::MASK.end)?;
    Ok(AddressMask {
        ident: octets.u16_at(field::IDENT),
        seq_no: octets.u16_at(field::SEQ_NO),
        mask: Ipv4Address::from_octets(octets.field(field::MASK).try_into().unwrap()),
    })
}

// The advertisement of routers.
fn read_advertisement(octets: &[u8]) -> Result<RouterAdvertisement<'_>, Refusal>
    requires { 8 ≤ length octets.now }
    ensures sound { IfOk result (λ advertisement. IsAdvertisement octets.now (advert_of advertisement)) }
    ensures passes { IfOk result (λ advertisement. Passes (advert_checks octets.now)) }
    ensures told { IfErr result (Fails (advert_checks octets.now)) }
{
    let code = octets[field::CODE];
    if code != 0 {
        return Err(Refusal::Code(code));
    }
    let count = octets[field::ROUTER_COUNT];
    if count == 0 {
        return Err(Refusal::NoRouters);
    }
    let words = octets[field::ENTRY_WORDS];
    if words < ENTRY_WORDS {
        return Err(Refusal::EntrySize(words));
    }
    let end = field::HEADER_END + 4 * (words as usize * count as usize);
    if octets.len() < end {
        return Err(Refusal::Cut);
    }
    Ok(RouterAdvertisement {
        lifetime: octets.u16_at(field::LIFETIME),
        routers: Routers {
            count,
            spare_words: words - ENTRY_WORDS,
            octets: &octets[field::HEADER_END..end],
        },
    })
}
