//! Questions for names, of DNS and of the services that share its messages.

ghost use Rattle.std.specs.Prelude.{◌≡◌, ◌↔◌, IfSome, IsNone, IsTrue, List, ℕ};
ghost use Rattle.std.specs.Option.{option_map};
ghost use Rattle.wirebase.specs.Bytes.{Reaches};
ghost use Rattle.dns_wire.specs.DnsPacket.{header, view_octets};
ghost use Rattle.record_wire.specs.Name.{labels_of};
ghost use Rattle.record_wire.specs.Record.{QuestionValue, question_of};
ghost use Rattle.packet_pairs.specs.Exchange.{Finds, exchange_of};
ghost use Rattle.packet_pairs.specs.Names.{Asks, IsName, IsNetbios, Repeats, name_way, question_class, role_in};

use crate::exchange::{Exchange, Role, way_of};
use crate::key::{Key, NameKey, NetbiosKey, Way};
use bitflags::Flags as _;
use dns_wire::dns::{Flags, MULTICAST_PORT, Opcode, Packet};
use message_fields::Service;
use record_wire::{Name, Question};

/// The question or the answer in a message that goes this way.
pub(crate) fn name_in(service: Service, over_tcp: bool, way: Way, octets: &[u8]) -> Option<Exchange>
    ensures { Finds (IsName service over_tcp way octets.now) (option_map exchange_of result) }
{
    let packet = match Packet::new_checked(octets) {
        Ok(packet) => packet,
        Err(_) => return None,
    };
    let role = role_in(&packet);
    let way = way_of(role, way);
    if !repeats(service, way) {
        return None;
    }
    let Some((question, name)) = asked(&packet) else {
        return None;
    };
    let key = NameKey {
        service,
        over_tcp,
        way: name_way(service, way),
        transaction_id: packet.transaction_id(),
        name,
        type_: question.type_,
        class: question_class(service, &question),
    };
    Some(Exchange {
        role,
        key: Key::Name(key),
    })
}

/// The query or the response of the NetBIOS name service in a message that goes this way.
pub(crate) fn netbios_in(way: Way, octets: &[u8]) -> Option<Exchange>
    ensures { Finds (IsNetbios way octets.now) (option_map exchange_of result) }
{
    let packet = match Packet::new_checked(octets) {
        Ok(packet) => packet,
        Err(_) => return None,
    };
    if packet.opcode() != Opcode::Query {
        return None;
    }
    let role = role_in(&packet);
    let key = NetbiosKey {
        way: way_of(role, way).to_anyone(),
        transaction_id: packet.transaction_id(),
    };
    Some(Exchange {
        role,
        key: Key::Netbios(key),
    })
}

// Whether a message asks or answers.
fn role_in(packet: &Packet<&[u8]>) -> Role
    requires { Reaches header (view_octets packet.now) }
    ensures { result ≡ role_in (view_octets packet.now) }
{
    if packet.flags().contains(Flags::RESPONSE) {
        return Role::Answers;
    }
    Role::Asks
}

// Whether the responses of a service to who asks this way repeat the question.
fn repeats(service: Service, way: Way) -> bool
    ensures { IsTrue result ↔ Repeats service way }
{
    match service {
        Service::Dns | Service::Llmnr => true,
        Service::Mdns => way.asker_port != MULTICAST_PORT,
        Service::Nbns | Service::Dhcp => false,
    }
}

// The one question of a message, and its name.
fn asked<'a>(packet: &Packet<&'a [u8]>) -> Option<(Question<'a>, Name)>
    requires { Reaches header (view_octets packet.now) }
    ensures some { IfSome result (λ asked.
        Asks (view_octets packet.entry.now) (question_of asked.0) (labels_of asked.1)) }
    ensures none { IsNone result → (q : QuestionValue) (labels : List (List ℕ))
        → Asks (view_octets packet.entry.now) q labels → ⊥ }
{
    if packet.question_count() != 1 {
        return None;
    }
    let question = match Question::parse(packet.payload()) {
        Ok((_, question)) => question,
        Err(_) => return None,
    };
    match Name::read(packet, question.name) {
        Ok(name) => Some((question, name)),
        Err(_) => None,
    }
}

// The way of the key of a question that goes this way.
fn name_way(service: Service, way: Way) -> Way
    ensures { result ≡ name_way service way }
{
    match service {
        Service::Dns => way,
        _ => way.to_anyone(),
    }
}

// The class of a question.
fn question_class(service: Service, question: &Question<'_>) -> u16
    ensures { result ≡ question_class service question.now.class }
{
    match service {
        Service::Mdns => question.multicast_class(),
        _ => question.class,
    }
}
