//! The types of options that are read.

ghost use Rattle.std.specs.Prelude.{◌≡◌};
ghost use Rattle.neighbor_wire.specs.Kind.{kind_of};

// The types of options that have a case of their own, and all others.
#[derive(Debug, PartialEq, Eq, Clone, Copy)]
pub(crate) enum Kind {
    Source,
    Target,
    Prefix,
    Mtu,
    Nonce,
    Route,
    DnsServers,
    SearchList,
    CaptivePortal,
    Nat64Prefix,
    Other,
}

impl Kind {
    // The kind of an option of this type.
    pub(crate) fn of(number: u8) -> Kind
        ensures { result ≡ kind_of number }
    {
        match number {
            1 => Kind::Source,
            2 => Kind::Target,
            3 => Kind::Prefix,
            5 => Kind::Mtu,
            14 => Kind::Nonce,
            24 => Kind::Route,
            25 => Kind::DnsServers,
            31 => Kind::SearchList,
            37 => Kind::CaptivePortal,
            38 => Kind::Nat64Prefix,
            _ => Kind::Other,
        }
    }
}
