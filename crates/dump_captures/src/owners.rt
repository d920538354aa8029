//! The messages of name services that have a question or a record of a name.

ghost use Rattle.std.specs.Prelude.{◌≡◌, ◌+◌, ◌*◌, ◌-◌, ◌<◌, ◌≤◌, ◌&&◌, take, IfSome, IfNone, drop, length};
ghost use Rattle.wirebase.specs.Bytes.{Reaches};
ghost use Rattle.dns_wire.specs.DnsPacket.{header, view_octets};
ghost use Rattle.record_wire.specs.Entries.{all_of, entry_of};
ghost use Rattle.record_wire.specs.Name.{labels_of};
ghost use Rattle.message_fields.specs.Checksums.{value_of};
ghost use Rattle.dump_captures.specs.Owners.{DatagramHas, HasName, HasOwner, MessageHas, NameEnds, OfMessage};
ghost use Rattle.dump_captures.specs.Owners.{ServiceHas, are_same, ends_in, has_end, is_netbios, is_padded, owner_in};
ghost use Rattle.dns_fields.specs.Netbios.{decoded, is_encoded, is_letter};
ghost use Rattle.std.specs.Char.{to_ascii_lowercase};
ghost use Rattle.std.specs.List.{list_all};
ghost use Rattle.dump_captures.specs.Content.{content_of};

use crate::content::Content;
use dns_wire::dns::Packet;
use frame_wire::CapturedUdp;
use message_fields::{Message, Service};
use record_wire::name::Labels;
use record_wire::{Entries, Entry, Name};

// The letters of a NetBIOS name.
const LETTERS: usize = 32;

/// Whether a control packet is chosen by a name, where one is asked for: its message has a question or a record of that
/// name, or of one that ends in it.
pub fn has_name(end: &Option<Name>, content: &Content<'_>) -> bool
    ensures { HasName end.now (content_of content.now) result }
{
    let Some(end) = end else {
        return true;
    };
    match content {
        Content::Whole(message) => is_of(end, message),
        Content::Cut(message, _, _) => is_of(end, message),
        Content::Refused(_, _, _) => false,
    }
}

// Whether a message has such a name.
fn is_of(end: &Name, message: &Message<'_>) -> bool
    ensures { OfMessage (labels_of end.now) (value_of message.now) result }
{
    match message {
        Message::Udp(service, _, octets) => service_has(*service, end, octets),
        Message::Tcp(_, _, octets) => message_has(Service::Dns, end, octets),
        _ => false,
    }
}

fn service_has(service: Service, end: &Name, octets: &[u8]) -> bool
    ensures { ServiceHas service (labels_of end.now) octets.now result }
{
    match service {
        Service::Dhcp => false,
        _ => datagram_has(service, end, octets),
    }
}

fn datagram_has(service: Service, end: &Name, octets: &[u8]) -> bool
    ensures { DatagramHas service (labels_of end.now) octets.now result }
{
    match CapturedUdp::parse(octets) {
        Ok(datagram) => message_has(service, end, datagram.payload),
        Err(_) => false,
    }
}

fn message_has(service: Service, end: &Name, octets: &[u8]) -> bool
    ensures { MessageHas service (labels_of end.now) octets.now result }
{
    match Packet::new_checked(octets) {
        Ok(packet) => has_owner(service, end, &packet),
        Err(_) => false,
    }
}

// Whether a question or a record has such a name.
fn has_owner(service: Service, end: &Name, packet: &Packet<&[u8]>) -> bool
    requires { Reaches header (view_octets packet.now) }
    ensures { HasOwner service (labels_of end.now) (view_octets packet.now) (all_of (view_octets packet.now)) result }
{
    let mut entries = Entries::new(packet);
    loop {
        let entry = match entries.next() {
            Some(Ok(entry)) => entry,
            Some(Err(_)) => return false,
            None => return false,
        };
        if name_ends(service, end, packet, owner_in(&entry)) {
            return true;
        }
    }
}

// The octets of the name of a question, or of the owner of a record.
fn owner_in<'a>(entry: &Entry<'a>) -> &'a [u8]
    ensures { result.now ≡ owner_in (entry_of entry.now) }
{
    match entry {
        Entry::Question(question) => question.name,
        Entry::Record(_, record) => record.name,
    }
}

// Whether these octets of a message are a name that ends so.
fn name_ends<'a>(service: Service, end: &Name, packet: &Packet<&'a [u8]>, octets: &'a [u8]) -> bool
    ensures { NameEnds service (labels_of end.now) (view_octets packet.now) octets.now result }
{
    match Name::read(packet, octets) {
        Ok(name) => has_end(service, end, &name),
        Err(_) => false,
    }
}

// Whether a name ends so, or is such a NetBIOS name.
fn has_end(service: Service, end: &Name, name: &Name) -> bool
    ensures { result ≡ has_end service (labels_of end.now) (labels_of name.now) }
{
    match service {
        Service::Nbns => ends_in(end, name) || is_netbios(end, name),
        _ => ends_in(end, name),
    }
}

// Whether a name, whose first label is 32 letters, is that of an end's first label in the scope of the others.
fn is_netbios(end: &Name, name: &Name) -> bool
    ensures { result ≡ is_netbios (labels_of end.now) (labels_of name.now) }
{
    let (mut rest, mut scope) = (end.labels(), name.labels());
    let Some(first) = rest.next() else {
        return false;
    };
    let Some(letters) = scope.next() else {
        return false;
    };
    spells(letters, first) && are_same(scope, rest)
}

// Whether a label of 32 letters is a name and a byte behind it.
fn spells(letters: &[u8], text: &[u8]) -> bool
    ensures { result ≡ (is_encoded letters.now && is_padded (decoded (take 30 letters.now)) text.now) }
{
    if letters.len() != LETTERS {
        return false;
    }
    are_letters(letters) && is_padded(&letters[..LETTERS - 2], text)
}

// Whether all of these are letters that stand for four bits.
fn are_letters(octets: &[u8]) -> bool
    ensures { result ≡ list_all is_letter octets.now }
{
    for octet in octets {
        if !matches!(octet, b'A'..=b'P') {
            return false;
        }
    }
    true
}

// Whether the bytes that letters spell are a text and spaces behind it.
fn is_padded(letters: &[u8], text: &[u8]) -> bool
    ensures { result ≡ is_padded (decoded letters.now) text.now }
{
    let (mut letters, mut text) = (letters, text);
    while let [high, low, others @ ..] = letters {
        let byte = byte_of(*high, *low);
        if let [first, behind @ ..] = text {
            if lower(byte) != lower(u16::from(*first)) {
                return false;
            }
            text = behind;
        } else if byte != 32 {
            return false;
        }
        letters = others;
    }
    text.is_empty()
}

fn byte_of(high: u8, low: u8) -> u16
    ensures { result ≡ 16 * (high - 65) + (low - 65) }
{
    16 * u16::from(high.saturating_sub(b'A')) + u16::from(low.saturating_sub(b'A'))
}

fn lower(byte: u16) -> u16
    ensures { result ≡ to_ascii_lowercase byte }
{
    if matches!(byte, 65..=90) {
        return byte + 32;
    }
    byte
}

// Whether the last labels of a name are those of an end.
fn ends_in(end: &Name, name: &Name) -> bool
    ensures { result ≡ ends_in (labels_of end.now) (labels_of name.now) }
{
    match front_of(end.labels(), name.labels()) {
        Some(front) => are_same(behind(front, name.labels()), end.labels()),
        None => false,
    }
}

// As many labels as a name has more than an end; None where it has fewer.
fn front_of<'a>(end: Labels<'_>, name: Labels<'a>) -> Option<Labels<'a>>
    ensures some { IfSome result (λ front. (length end.entry ≤ length name.entry)
        × (length front ≡ length name.entry - length end.entry)) }
    ensures none { IfNone result (length name.entry < length end.entry) }
{
    let (mut end, mut front) = (end, name);
    while end.next().is_some() {
        if front.next().is_none() {
            return None;
        }
    }
    Some(front)
}

// The labels of a name behind as many as there are in the front.
fn behind<'a>(front: Labels<'_>, name: Labels<'a>) -> Labels<'a>
    ensures { result ≡ drop (length front.entry) name.entry }
{
    let (mut front, mut left) = (front, name);
    while front.next().is_some() {
        left.next();
    }
    left
}

// Whether two names have the same labels, without regard to the case of ASCII letters.
fn are_same(name: Labels<'_>, other: Labels<'_>) -> bool
    ensures { result ≡ are_same name.entry other.entry }
{
    let (mut name, mut other) = (name, other);
    loop {
        let Some(label) = name.next() else {
            return other.next().is_none();
        };
        let Some(wanted) = other.next() else {
            return false;
        };
        if !label.eq_ignore_ascii_case(wanted) {
            return false;
        }
    }
}
