//! The flags of router and neighbor advertisements (RFC 4861 sections 4.2 and 4.4).

ghost use Rattle.std.specs.Prelude.{⊤, ◌≡◌, Some, map};
ghost use Rattle.std.specs.Int.RustNames.{bit_and, bit_or, bit_xor};
ghost use Rattle.bitflags.specs.Sets.{without};
ghost use Rattle.icmp6_wire.specs.NdiscTables.{router_rows, neighbor_rows, router_bits, neighbor_bits};
ghost use Rattle.icmp6_wire.specs.NdiscTables.{router_flags_text, neighbor_flags_text};

use bitflags::{Flag, Flags as _};
use std::fmt;
use std::ops::{BitAnd, BitOr, BitXor, Not, Sub};

/// The flags of a router advertisement (RFC 4861 section 4.2). The calls of a set are those of `bitflags::Flags`.
#[derive(Debug, PartialEq, Eq, Clone, Copy)]
pub struct RouterFlags(u8);

impl RouterFlags {
    /// Addresses are to be had by DHCPv6.
    pub const MANAGED: RouterFlags = RouterFlags(0x80);

    /// Other configuration is to be had by DHCPv6.
    pub const OTHER: RouterFlags = RouterFlags(0x40);

    const NAMED: &'static [Flag<RouterFlags>] = &[
        Flag {
            name: "MANAGED",
            value: RouterFlags::MANAGED,
        },
        Flag {
            name: "OTHER",
            value: RouterFlags::OTHER,
        },
    ];
}

impl bitflags::Flags for RouterFlags {
    type Bits = u8;

    ghost exact = { ⊤ };

    ghost table = { router_rows };

    ghost set_of = { λ flags. flags.0 };

    fn flags<'a>() -> &'a [Flag<RouterFlags>]
        ensures table { map (λ f. (f.name.now, router_bits f.value)) result.now ≡ router_rows }
        ensures constants { (router_bits RouterFlags.MANAGED ≡ 0x80)
            × (router_bits RouterFlags.OTHER ≡ 0x40) }
    {
        RouterFlags::NAMED
    }

    fn bits(&self) -> u8 {
        self.0
    }

    fn from_bits_retain(bits: u8) -> RouterFlags {
        RouterFlags(bits)
    }
}

/// The names of the flags that are set, as `managed,other`; `-` where none is. Bits without a name are not printed.
impl fmt::Display for RouterFlags {
    ghost output = { λ flags. Some (router_flags_text (router_bits flags)) };

    fn fmt<W: fmt::Write>(&self, f: &mut fmt::Formatter<W>) -> fmt::Result {
        let managed = self.bits() & 0x80 != 0;
        let other = self.bits() & 0x40 != 0;
        f.write_str(match (managed, other) {
            (false, false) => "-",
            (false, true) => "other",
            (true, false) => "managed",
            (true, true) => "managed,other",
        })
    }
}

impl BitOr for RouterFlags {
    type Output = RouterFlags;

    ghost bitor_gives = { λ a b r. r.0 ≡ bit_or a.0 b.0 };

    fn bitor(self, other: RouterFlags) -> RouterFlags {
        RouterFlags(self.0 | other.0)
    }
}

impl BitAnd for RouterFlags {
    type Output = RouterFlags;

    ghost bitand_gives = { λ a b r. r.0 ≡ bit_and a.0 b.0 };

    fn bitand(self, other: RouterFlags) -> RouterFlags {
        RouterFlags(self.0 & other.0)
    }
}

impl BitXor for RouterFlags {
    type Output = RouterFlags;

    ghost bitxor_gives = { λ a b r. r.0 ≡ bit_xor a.0 b.0 };

    fn bitxor(self, other: RouterFlags) -> RouterFlags {
        RouterFlags(self.0 ^ other.0)
    }
}

impl Sub for RouterFlags {
    type Output = RouterFlags;

    ghost sub_gives = { λ a b r. r.0 ≡ without 8 a.0 b.0 };

    fn sub(self, other: RouterFlags) -> RouterFlags {
        RouterFlags(self.0 & !other.0)
    }
}

impl Not for RouterFlags {
    type Output = RouterFlags;

    ghost not_gives = { λ a r. r.0 ≡ without 8 0xc0 a.0 };

    fn not(self) -> RouterFlags {
        RouterFlags(0xc0 & !self.0)
    }
}

/// The flags of a neighbor advertisement (RFC 4861 section 4.4). The calls of a set are those of `bitflags::Flags`.
#[derive(Debug, PartialEq, Eq, Clone, Copy)]
pub struct NeighborFlags(u8);

impl NeighborFlags {
    /// The sender is a router.
    pub const ROUTER: NeighborFlags = NeighborFlags(0x80);

    /// The message answers a solicitation.
    pub const SOLICITED: NeighborFlags = NeighborFlags(0x40);

    /// The address is to take the place of one that is known.
    pub const OVERRIDE: NeighborFlags = NeighborFlags(0x20);

    const NAMED: &'static [Flag<NeighborFlags>] = &[
        Flag {
            name: "ROUTER",
            value: NeighborFlags::ROUTER,
        },
        Flag {
            name: "SOLICITED",
            value: NeighborFlags::SOLICITED,
        },
        Flag {
            name: "OVERRIDE",
            value: NeighborFlags::OVERRIDE,
        },
    ];
}

impl bitflags::Flags for NeighborFlags {
    type Bits = u8;

    ghost exact = { ⊤ };

    ghost table = { neighbor_rows };

    ghost set_of = { λ flags. flags.0 };

    fn flags<'a>() -> &'a [Flag<NeighborFlags>]
        ensures table { map (λ f. (f.name.now, neighbor_bits f.value)) result.now
            ≡ neighbor_rows }
        ensures constants { (neighbor_bits NeighborFlags.ROUTER ≡ 0x80)
            × (neighbor_bits NeighborFlags.SOLICITED ≡ 0x40)
            × (neighbor_bits NeighborFlags.OVERRIDE ≡ 0x20) }
    {
        NeighborFlags::NAMED
    }

    fn bits(&self) -> u8 {
        self.0
    }

    fn from_bits_retain(bits: u8) -> NeighborFlags {
        NeighborFlags(bits)
    }
}

/// The names of the flags that are set, as `solicited,override`; `-` where none is. Bits without a name are not
/// printed.
impl fmt::Display for NeighborFlags {
    ghost output = { λ flags. Some (neighbor_flags_text (neighbor_bits flags)) };

    fn fmt<W: fmt::Write>(&self, f: &mut fmt::Formatter<W>) -> fmt::Result {
        let router = self.bits() & 0x80 != 0;
        let solicited = self.bits() & 0x40 != 0;
        let overrides = self.bits() & 0x20 != 0;
        f.write_str(match (router, solicited, overrides) {
            (false, false, false) => "-",
            (false, false, true) => "override",
            (false, true, false) => "solicited",
            (false, true, true) => "solicited,override",
            (true, false, false) => "router",
            (true, false, true) => "router,override",
            (true, true, false) => "router,solicited",
            (true, true, true) => "router,solicited,override",
        })
    }
}

impl BitOr for NeighborFlags {
    type Output = NeighborFlags;

    ghost bitor_gives = { λ a b r. r.0 ≡ bit_or a.0 b.0 };

    fn bitor(self, other: NeighborFlags) -> NeighborFlags {
        NeighborFlags(self.0 | other.0)
    }
}

impl BitAnd for NeighborFlags {
    type Output = NeighborFlags;

    ghost bitand_gives = { λ a b r. r.0 ≡ bit_and a.0 b.0 };

    fn bitand(self, other: NeighborFlags) -> NeighborFlags {
        NeighborFlags(self.0 & other.0)
    }
}

impl BitXor for NeighborFlags {
    type Output = NeighborFlags;

    ghost bitxor_gives = { λ a b r. r.0 ≡ bit_xor a.0 b.0 };

    fn bitxor(self, other: NeighborFlags) -> NeighborFlags {
        NeighborFlags(self.0 ^ other.0)
    }
}

impl Sub for NeighborFlags {
    type Output = NeighborFlags;

    ghost sub_gives = { λ a b r. r.0 ≡ without 8 a.0 b.0 };

    fn sub(self, other: NeighborFlags) -> NeighborFlags {
        NeighborFlags(self.0 & !other.0)
    }
}

impl Not for NeighborFlags {
    type Output = NeighborFlags;

    ghost not_gives = { λ a r. r.0 ≡ without 8 0xe0 a.0 };

    fn not(self) -> NeighborFlags {
        NeighborFlags(0xe0 & !self.0)
    }
}
