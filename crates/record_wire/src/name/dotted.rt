//! The text of a name without escapes, written straight from the message.

ghost use Rattle.std.specs.Prelude.{◌≡◌, ◌↔◌, ◌+◌, ◌<◌, ◌≤◌, ◌++◌, ℕ, List, codes, length, take, IsSome, IfSome};
ghost use Rattle.std.specs.List.{count_by};
ghost use Rattle.dns_wire.specs.DnsPacket.{view_octets};
ghost use Rattle.record_wire.specs.NameDotted.{is_usual, dotted_text, AreUsual};
ghost use Rattle.record_wire.specs.private.NameParts.{StandInFront};

use crate::name::MAX_POINTERS;
use dns_wire::dns::Packet;
use dns_wire::octets::{NamePart, follow, octets_of, read_front};

/// The size of the buffer that holds the text of any such name.
pub const ROOM_LEN: usize = 256;

// The most octets of labels and dots (RFC 1035 section 2.3.4): a dot takes the place of each length, and byte 0 has no
// text.
const MOST: usize = 254;

// A label of up to this many bytes is copied as a block of this size.
const PIECE: usize = 16;

/// Puts the text of the name that begins in `bytes`, and goes on where its pointers lead in the message, into the
/// buffer, each label with a dot after it, or a dot alone for the root, and returns its length. None where no name is
/// read, and where a byte of a label is not a letter, a digit, `-` or `_`, since its text may need a backslash then.
pub fn put_dotted<'a>(
    room: &mut [u8; ROOM_LEN],
    packet: &Packet<&'a [u8]>,
    bytes: &'a [u8],
) -> Option<usize>
    ensures some { IsSome result
        ↔ ((labels : List (List ℕ)) × AreUsual bytes.now (view_octets packet.now) labels) }
    ensures fits { IfSome result (λ len. len ≤ 256) }
    ensures text { IfSome result (λ len. (labels : List (List ℕ))
        × AreUsual bytes.now (view_octets packet.now) labels × (take len room.new ≡ dotted_text labels)) }
{
    put_text(room, octets_of(packet), bytes)
}

/// Puts the text of a name into the buffer, over the octets of the message, as [`put_dotted`] does. A pointer leads to
/// one of the bytes that are open, and leaves only those below that place open, so this ends.
pub(super) fn put_text(room: &mut [u8; ROOM_LEN], message: &[u8], bytes: &[u8]) -> Option<usize>
    ensures some { IsSome result ↔ ((labels : List (List ℕ)) × AreUsual bytes.now message.now labels) }
    ensures fits { IfSome result (λ len. len ≤ 256) }
    ensures text { IfSome result (λ len. (labels : List (List ℕ)) × AreUsual bytes.now message.now labels
        × (take len room.new ≡ dotted_text labels)) }
{
    let mut at = 0;
    let mut dots = 0;
    let mut pointers = 0;
    let mut left = bytes;
    // The bytes of the message that are open.
    let mut reach = message;
    loop {
        match read_front(left) {
            NamePart::Label(label, rest) => {
                let Some(end) = put_label(room, at, label, &left[1..]) else {
                    return None;
                };
                at = end;
                dots += 1;
                left = rest;
            }
            NamePart::Pointer(target) => {
                let Some((next, open)) = follow(reach, target) else {
                    return None;
                };
                if pointers == MAX_POINTERS {
                    return None;
                }
                pointers += 1;
                left = next;
                reach = open;
            }
            NamePart::End => {
                if at == 0 {
                    room[0] = b'.';
                    return Some(1);
                }
                // A dot is not usual, so the only dots are those between labels.
                if count_usual(&room[..at]) + dots != at {
                    return None;
                }
                return Some(at);
            }
            NamePart::Torn => return None,
        }
    }
}

// Puts a label and a dot after the first octets of a buffer, `at` of them, and returns how many there are then. The
// label is at the start of `ahead`. None where a name has no room for them.
#[inline(always)]
fn put_label(room: &mut [u8; ROOM_LEN], at: usize, label: &[u8], ahead: &[u8]) -> Option<usize>
    requires place { at ≤ 254 }
    requires ahead { StandInFront label.now ahead.now }
    ensures some { IsSome result ↔ (at + length label.now < 254) }
    ensures end { IfSome result (λ end. end ≡ at + length label.now + 1) }
    ensures text { IfSome result (λ end. take end room.new ≡ take at room.old ++ label.now ++ codes ".") }
{
    let end = at + label.len();
    if end >= MOST {
        return None;
    }
    copy_label(room, at, label, ahead);
    room[end] = b'.';
    Some(end + 1)
}

// Puts a label after the first `at` octets of a buffer. For most labels sixteen bytes are copied, since a copy of
// constant length is cheaper: the bytes after the label have no meaning.
#[inline(always)]
fn copy_label(room: &mut [u8; ROOM_LEN], at: usize, label: &[u8], ahead: &[u8])
    requires place { at + length label.now ≤ 254 }
    requires ahead { StandInFront label.now ahead.now }
    ensures { take (at + length label.now) room.new ≡ take at room.old ++ label.now }
{
    let end = at + label.len();
    if label.len() <= PIECE && ahead.len() >= PIECE && at <= ROOM_LEN - PIECE {
        room[at..at + PIECE].copy_from_slice(&ahead[..PIECE]);
    } else {
        room[at..end].copy_from_slice(label);
    }
}

// The number of usual bytes at the start of a text. Each byte is looked at, since a branch at a byte would cost more.
fn count_usual(text: &[u8]) -> usize
    ensures few { result ≤ length text.now }
    ensures count { result ≡ count_by is_usual text.now }
{
    let mut count = 0;
    for byte in text {
        count += is_usual(*byte) as usize;
    }
    count
}

// Whether a byte is a letter, a digit, `-` or `_`.
fn is_usual(byte: u8) -> bool
    ensures { result ≡ is_usual byte }
{
    USUAL[byte as usize]
}

const T: bool = true;

const F: bool = false;

// Whether each byte is usual, thirty-two bytes a line.
static USUAL: [bool; 256] = [
    F, F, F, F, F, F, F, F, F, F, F, F, F, F, F, F, F, F, F, F, F, F, F, F, F, F, F, F, F, F, F, F,
    F, F, F, F, F, F, F, F, F, F, F, F, F, T, F, F, T, T, T, T, T, T, T, T, T, T, F, F, F, F, F, F,
    F, T, T, T, T, T, T, T, T, T, T, T, T, T, T, T, T, T, T, T, T, T, T, T, T, T, T, F, F, F, F, T,
    F, T, T, T, T, T, T, T, T, T, T, T, T, T, T, T, T, T, T, T, T, T, T, T, T, T, T, F, F, F, F, F,
    F, F, F, F, F, F, F, F, F, F, F, F, F, F, F, F, F, F, F, F, F, F, F, F, F, F, F, F, F, F, F, F,
    F, F, F, F, F, F, F, F, F, F, F, F, F, F, F, F, F, F, F, F, F, F, F, F, F, F, F, F, F, F, F, F,
    F, F, F, F, F, F, F, F, F, F, F, F, F, F, F, F, F, F, F, F, F, F, F, F, F, F, F, F, F, F, F, F,
    F, F, F, F, F, F, F, F, F, F, F, F, F, F, F, F, F, F, F, F, F, F, F, F, F, F, F, F, F, F, F, F,
];
