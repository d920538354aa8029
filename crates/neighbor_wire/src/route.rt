//! Routes (RFC 4191 section 2.3).

use crate::nat64::address_from;
use crate::preference::Preference;
use std::fmt;
use wirebase::Ipv6Address;

/// A route through the router that sends it.
#[derive(Debug, PartialEq, Eq, Clone, Copy)]
pub struct Route<'a> {
    /// The bits of the prefix: 0 to 128, and no more than `prefix` has.
    pub prefix_len: u8,
    /// The preference of the route over others of the same prefix.
    pub preference: Preference,
    /// How long the route is valid, in seconds; 0xffffffff is for ever.
    pub lifetime: u32,
    /// The octets of the prefix: 0, 8 or 16; the later octets of the address are zero.
    pub prefix: &'a [u8],
}

impl Route<'_> {
    ghost use Rattle.std.specs.Prelude.{◌≡◌, replicate};
    ghost use Rattle.wirebase.specs.Bytes.{over};
    ghost use Rattle.wirebase.specs.Ipv6Address.{octets_of};

    /// The address that the octets of the prefix begin, with zeros behind them; octets behind the sixteenth are
    /// ignored. Of the bits behind the first `prefix_len`, which say nothing, it has those that were sent.
    pub fn destination(&self) -> Ipv6Address
        ensures { octets_of result ≡ over (replicate 16 0) self.now.prefix.now }
    {
        address_from(self.prefix)
    }
}

/// Prints the route with its fields, as `route 2001:db8::/48 preference=high lifetime=3600`.
impl fmt::Display for Route<'_> {
    ghost use Rattle.std.specs.Prelude.{Some};
    ghost use Rattle.neighbor_wire.specs.Option.{route_value};
    ghost use Rattle.neighbor_wire.specs.Display.{display};

    ghost output = { λ route. Some (display (route_value route)) };

    fn fmt<W: fmt::Write>(&self, f: &mut fmt::Formatter<W>) -> fmt::Result {
        let destination = self.destination();
        let Route {
            prefix_len,
            preference,
            lifetime,
            ..
        } = *self;
        write!(
            f,
            "route {destination}/{prefix_len} preference={preference} lifetime={lifetime}"
        )
    }
}
