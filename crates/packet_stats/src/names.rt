//! Names in lower case.

ghost use Rattle.std.specs.Prelude.{◌≡◌, map};
ghost use Rattle.std.specs.Char.{to_ascii_lowercase};
ghost use Rattle.record_wire.specs.Labels.{AreOfName, wire};
ghost use Rattle.record_wire.specs.Name.{labels_of};
ghost use Rattle.record_wire.specs.NameCase.{lower_labels};

use arrayvec::ArrayVec;
use dns_wire::dns::Packet;
use record_wire::Name;
use record_wire::name::MAX_NAME_LEN;

/// The name with its letters of ASCII in lower case.
pub(crate) fn lowered(name: &Name) -> Name
    ensures { labels_of result ≡ lower_labels (labels_of name.now) }
{
    let octets = lower_octets(name);
    let octets = octets.as_slice();
    // A whole name has no pointers, so any message will do.
    Name::read(&Packet::new_unchecked(octets), octets).unwrap()
}

fn lower_octets(name: &Name) -> ArrayVec<u8, MAX_NAME_LEN>
    ensures value { result.items ≡ map to_ascii_lowercase (wire (labels_of name.now)) }
    ensures name { AreOfName (labels_of name.now) }
{
    let mut octets = ArrayVec::new();
    for octet in name.octets() {
        octets.push(octet.to_ascii_lowercase());
    }
    octets
}
