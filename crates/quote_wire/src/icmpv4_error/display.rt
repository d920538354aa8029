//! What errors and their types print, each in one line.

ghost use Rattle.std.specs.Prelude.{Some};
ghost use Rattle.std.specs.Option.{option_map};
ghost use Rattle.wirebase.specs.Ipv4.{octets_of};
ghost use Rattle.quote_wire.specs.Error.{mtu_display, pointer_display};
ghost use Rattle.quote_wire.specs.Icmpv4Error.{value_of, gateway_display, kind_display, repr_display};

use super::{Kind, Repr};
use std::fmt;
use wirebase::Ipv4Address;

/// The type by its name, the code and its meaning, the next hop's MTU, the gateway or the pointer where the error has
/// one, and the number of quoted bytes, as `ICMPv4 redirect code=1 (redirect for the host) gateway=192.0.2.1
/// quoted=28`.
impl fmt::Display for Repr<'_> {
    ghost output = { λ repr. Some (repr_display (value_of repr)) };

    fn fmt<W: fmt::Write>(&self, f: &mut fmt::Formatter<W>) -> fmt::Result {
        let kind = self.kind;
        let code = self.code;
        let mtu = Mtu(self.next_hop_mtu());
        let gateway = Gateway(self.gateway());
        let pointer = Pointer(self.pointer());
        let len = self.quoted.len();
        match self.reason() {
            Some(reason) => write!(
                f,
                "ICMPv4 {kind} code={code} ({reason}){mtu}{gateway}{pointer} quoted={len}"
            ),
            None => write!(
                f,
                "ICMPv4 {kind} code={code}{mtu}{gateway}{pointer} quoted={len}"
            ),
        }
    }
}

/// The name of the type.
impl fmt::Display for Kind {
    ghost output = { λ kind. Some (kind_display kind) };

    fn fmt<W: fmt::Write>(&self, f: &mut fmt::Formatter<W>) -> fmt::Result {
        let name = match self {
            Kind::DstUnreachable => "destination unreachable",
            Kind::SourceQuench => "source quench",
            Kind::Redirect => "redirect",
            Kind::TimeExceeded => "time exceeded",
            Kind::ParamProblem => "parameter problem",
        };
        f.write_str(name)
    }
}

// An optional field after its name; nothing where it is None.

#[derive(Clone, Copy)]
struct Mtu(Option<u16>);

impl fmt::Display for Mtu {
    ghost output = { λ field. Some (mtu_display field.0) };

    #[tactic(auto, unfolding(crate::specs::Error::mtu_display))]
    fn fmt<W: fmt::Write>(&self, f: &mut fmt::Formatter<W>) -> fmt::Result {
        match self.0 {
            Some(mtu) => write!(f, " mtu={mtu}"),
            None => Ok(()),
        }
    }
}

#[derive(Clone, Copy)]
struct Gateway(Option<Ipv4Address>);

impl fmt::Display for Gateway {
    ghost output = { λ field. Some (gateway_display (option_map octets_of field.0)) };

    #[tactic(auto, unfolding(crate::specs::Icmpv4Error::gateway_display))]
    fn fmt<W: fmt::Write>(&self, f: &mut fmt::Formatter<W>) -> fmt::Result {
        match self.0 {
            Some(address) => write!(f, " gateway={address}"),
            None => Ok(()),
        }
    }
}

#[derive(Clone, Copy)]
struct Pointer(Option<u8>);

impl fmt::Display for Pointer {
    ghost output = { λ field. Some (pointer_display field.0) };

    #[tactic(auto, unfolding(crate::specs::Error::pointer_display))]
    fn fmt<W: fmt::Write>(&self, f: &mut fmt::Formatter<W>) -> fmt::Result {
        match self.0 {
            Some(place) => write!(f, " pointer={place}"),
            None => Ok(()),
        }
    }
}
