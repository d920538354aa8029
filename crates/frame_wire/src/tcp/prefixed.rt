//! Messages behind their lengths.

ghost use Rattle.std.specs.Prelude.{◌≡◌, [], List, ℕ, IfSome, IsNone, IsSomeAnd, length};
ghost use Rattle.frame_wire.specs.TcpPrefixed.{IsMessage, IsPrefixed, GivesMessage, messages_in, messages_of};

use crate::link::behind;
use std::marker::Model;
use wirebase::{Octets, are_bytes};

// The bytes of a length.
const LENGTH_LEN: usize = 2;

/// One or more messages, one after another, each behind its length in two bytes: as DNS has them over TCP (RFC 1035
/// section 4.2.2).
///
/// ```
/// use frame_wire::tcp::Prefixed;
///
/// let messages = Prefixed::new(b"\0\x02hi\0\x03all", 1).unwrap();
/// let mut messages = messages.messages();
/// assert_eq!(messages.next(), Some(&b"hi"[..]));
/// assert_eq!(messages.next(), Some(&b"all"[..]));
/// assert_eq!(messages.next(), None);
/// // A message that is cut, and one that is shorter than two bytes.
/// assert_eq!(Prefixed::new(b"\0\x02hi\0\x03al", 1), None);
/// assert_eq!(Prefixed::new(b"\0\x01h", 2), None);
/// ```
#[derive(Debug, PartialEq, Eq, Clone, Copy)]
pub struct Prefixed<'a> {
    octets: &'a [u8],
}

impl<'a> Prefixed<'a> {
    /// The messages that the octets are. None where there is none, where one is cut or shorter than `least` bytes, or
    /// where bytes follow the last that are no message. With a `least` of 0 a message may be empty.
    pub fn new(octets: &'a [u8], least: usize) -> Option<Prefixed<'a>>
        ensures sound { IfSome result (λ p. IsPrefixed least octets.now (messages_of p)) }
        ensures complete { (messages : List (List ℕ)) → IsPrefixed least octets.now messages
            → IsSomeAnd result (λ p. messages_of p ≡ messages) }
    {
        if octets.is_empty() {
            return None;
        }
        let mut left = octets;
        'messages: while !left.is_empty() {
            let (message, rest) = first(left)?;
            if message.len() < least {
                return None;
            }
            left = rest;
        }
        Some(Prefixed { octets })
    }

    /// The messages in turn, without their lengths.
    pub fn messages(&self) -> Messages<'a>
        ensures { result ≡ messages_of self.now }
    {
        Messages { left: self.octets }
    }
}

/// The messages of a [`Prefixed`] in turn.
#[derive(Debug, Clone, Drop)]
pub struct Messages<'a> {
    // The octets after the messages that were returned.
    left: &'a [u8],
}

impl<'a> Model for Messages<'a> {
    ghost use Rattle.std.specs.Prelude.{List, ℕ};
    ghost use Rattle.frame_wire.specs.TcpPrefixed.{messages_in};

    ghost Value = { List (List ℕ) };

    ghost view = { λ it. messages_in it.left.now };
}

impl<'a> Iterator for Messages<'a> {
    ghost use Rattle.std.specs.Iterator.{at_most};

    type Item = &'a [u8];

    ghost next_gives = { GivesMessage };

    ghost remaining = { λ messages. at_most (length messages) };

    fn next(&mut self) -> Option<&'a [u8]> {
        let (message, rest) = first(self.left)?;
        self.left = rest;
        Some(message)
    }
}

// The message at the start of the octets, and what follows it; None where no whole one is there.
fn first(octets: &[u8]) -> Option<(&[u8], &[u8])>
    ensures some { IfSome result (λ parts. IsMessage octets.now parts.0.now parts.1.now) }
    ensures none { IsNone result → messages_in octets.now ≡ [] }
{
    are_bytes(octets);
    if octets.len() < LENGTH_LEN {
        return None;
    }
    let end = LENGTH_LEN + octets.u16_at(0..2) as usize;
    if octets.len() < end {
        return None;
    }
    Some((&octets[LENGTH_LEN..end], behind(octets, end)))
}
