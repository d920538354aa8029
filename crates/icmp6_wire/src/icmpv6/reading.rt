//! Messages read from the octets of a packet, by their types.

ghost use Rattle.std.specs.Prelude.{◌≡◌, ◌≤◌, ◌<◌, length, IfOk, IsErr};
ghost use Rattle.wirebase.specs.Bytes.{byte_of};
ghost use Rattle.wirebase.specs.Checks.{Passes, Fails};
ghost use Rattle.wirebase.specs.Icmp.{type_field, code_field, data_in};
ghost use Rattle.icmp6_wire.specs.Icmpv6Tables.{message_number};
ghost use Rattle.icmp6_wire.specs.Icmpv6Packet.{view_octets, message_in, BeginsWhole};
ghost use Rattle.icmp6_wire.specs.Icmpv6.{value_of, type_checks, IsContent};
ghost use Rattle.icmp6_wire.specs.declared.icmpv6.refusal.Refusal.TheVariants.{Code, Quote};

use super::field;
use super::packet::Packet;
use super::quote::read_quote;
use super::repr::Repr;
use super::tables::Message;
use wirebase::{Error, IPV6_HEADER_LEN, Result};

// The error in octets of such a type, where their checks by the type hold.
#[inline(always)]
pub(super) fn read_error<'a>(packet: &Packet<&'a [u8]>, kind: Message) -> Result<Repr<'a>>
    requires whole { BeginsWhole (view_octets packet.now) }
    requires kind { kind ≡ message_in (view_octets packet.now) }
    requires error { message_number kind < 128 }
    ensures passes { IfOk result (λ repr. Passes (type_checks kind (view_octets packet.now))) }
    ensures sound { IfOk result (λ repr. IsContent (view_octets packet.now) (value_of repr)) }
    ensures quote { IsErr result → length (view_octets packet.now) < 48
        → Fails (type_checks kind (view_octets packet.now)) Quote }
    ensures code { IsErr result → 48 ≤ length (view_octets packet.now)
        → Fails (type_checks kind (view_octets packet.now)) (Code (byte_of code_field (view_octets packet.now))) }
{
    let payload = behind_header(packet);
    if payload.len() < IPV6_HEADER_LEN {
        return Err(Error);
    }
    let code = packet.msg_code();
    let (header, data) = read_quote(payload);
    match kind {
        Message::DstUnreachable => {
            return Ok(Repr::DstUnreachable {
                reason: code.into(),
                header,
                data,
            });
        }
        Message::PktTooBig if code == 0 => {
            return Ok(Repr::PktTooBig {
                mtu: packet.pkt_too_big_mtu(),
                header,
                data,
            });
        }
        Message::TimeExceeded => {
            return Ok(Repr::TimeExceeded {
                reason: code.into(),
                header,
                data,
            });
        }
        Message::ParamProblem => {
            return Ok(Repr::ParamProblem {
                reason: code.into(),
                pointer: packet.param_problem_ptr(),
                header,
                data,
            });
        }
        _ => {
            return Err(Error);
        }
    }
}

// The echo request in octets of that type and of code 0.
#[inline(always)]
pub(super) fn read_echo_request<'a>(packet: &Packet<&'a [u8]>) -> Repr<'a>
    requires some { 8 ≤ length (view_octets packet.now) }
    requires kind { byte_of type_field (view_octets packet.now) ≡ 0x80 }
    requires code { byte_of code_field (view_octets packet.now) ≡ 0 }
    ensures { IsContent (view_octets packet.now) (value_of result) }
{
    Repr::EchoRequest {
        ident: packet.echo_ident(),
        seq_no: packet.echo_seq_no(),
        data: behind_header(packet),
    }
}

// The echo reply in octets of that type and of code 0.
#[inline(always)]
pub(super) fn read_echo_reply<'a>(packet: &Packet<&'a [u8]>) -> Repr<'a>
    requires some { 8 ≤ length (view_octets packet.now) }
    requires kind { byte_of type_field (view_octets packet.now) ≡ 0x81 }
    requires code { byte_of code_field (view_octets packet.now) ≡ 0 }
    ensures { IsContent (view_octets packet.now) (value_of result) }
{
    Repr::EchoReply {
        ident: packet.echo_ident(),
        seq_no: packet.echo_seq_no(),
        data: behind_header(packet),
    }
}

// What follows the header of an error or an echo, which has 8 bytes.
#[inline(always)]
fn behind_header<'a>(packet: &Packet<&'a [u8]>) -> &'a [u8]
    requires { 8 ≤ length (view_octets packet.now) }
    ensures { result.now ≡ data_in (view_octets packet.now) }
{
    &packet.buffer[field::HEADER_END..]
}
