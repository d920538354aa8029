//! The way to a datagram: VLANs, tunnels and fragments.

ghost use Rattle.std.specs.Prelude.{◌≡◌, ◌≤◌, ◌<◌, ◌++◌, [], ◌∷◌, IfSome, IsNone, length};
ghost use Rattle.dump_captures.specs.Path.{tunnels_of};

use frame_wire::{Addresses, Tunnel};

/// The way to a datagram.
#[derive(Debug, PartialEq, Eq, Clone, Copy)]
pub struct Path<'a> {
    /// The VLAN tags of its frame, four bytes each.
    pub tags: &'a [u8],
    /// The tunnels that it is in.
    pub tunnels: Tunnels,
    /// The numbers of the packets that its fragments came in, in the order of their offsets; none where it came whole.
    pub frames: &'a [u64],
}

/// A tunnel, and the addresses of the datagram whose payload it is.
#[derive(Debug, PartialEq, Eq, Clone, Copy)]
pub struct Passage {
    /// The tunnel.
    pub tunnel: Tunnel,
    /// The source and the destination of the datagram outside.
    pub addresses: Addresses,
}

/// The tunnels that a datagram is in, the outermost first: at most four.
#[derive(Debug, PartialEq, Eq, Clone, Copy)]
pub enum Tunnels {
    /// It is in none.
    Zero,
    /// One.
    One(Passage),
    /// Two.
    Two(Passage, Passage),
    /// Three.
    Three(Passage, Passage, Passage),
    /// Four.
    Four(Passage, Passage, Passage, Passage),
}

impl Tunnels {
    /// The tunnels with one more, the innermost; None where there are four.
    pub fn with(&self, inner: Passage) -> Option<Tunnels>
        ensures more { IfSome result (λ tunnels. tunnels_of tunnels ≡ tunnels_of self.now ++ inner ∷ []) }
        ensures room { IfSome result (λ tunnels. length (tunnels_of self.now) < 4) }
        ensures full { IsNone result → 4 ≤ length (tunnels_of self.now) }
    {
        match *self {
            Tunnels::Zero => Some(Tunnels::One(inner)),
            Tunnels::One(a) => Some(Tunnels::Two(a, inner)),
            Tunnels::Two(a, b) => Some(Tunnels::Three(a, b, inner)),
            Tunnels::Three(a, b, c) => Some(Tunnels::Four(a, b, c, inner)),
            Tunnels::Four(..) => None,
        }
    }
}
