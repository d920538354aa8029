//! Which fields of a packet hold options besides the options field.

ghost use Rattle.std.specs.Prelude.{◌≡◌, Option};
ghost use Rattle.wirebase.specs.Bytes.{Reaches};
ghost use Rattle.dhcp_wire.specs.Dhcpv4Options.{value_of_option};
ghost use Rattle.dhcp_wire.specs.Dhcpv4Packet.{magic_field};
ghost use Rattle.dhcp_options.specs.Overload.{IsOverload, overload_of, said};

use dhcp_wire::dhcpv4::{DhcpOption, OPT_OPTION_OVERLOAD, Packet};

/// Which of the fields `file` and `sname` hold options, by the number in option 52 (RFC 2132 section 9.3).
#[derive(Debug, PartialEq, Eq, Clone, Copy)]
pub enum Overload {
    /// `file`: 1.
    File,
    /// `sname`: 2.
    Sname,
    /// Both: 3.
    FileAndSname,
}

impl Overload {
    /// The overload of the packet in these octets: what the first option 52 of its options field that has one byte, of
    /// 1 to 3, says. None where there is no such option: then `file` and `sname` are names. Requires at least 240
    /// bytes.
    pub fn of(octets: &[u8]) -> Option<Overload>
        requires { Reaches magic_field octets.now }
        ensures overload { IsOverload octets.now result }
        ensures unique { (other : Option Overload) → IsOverload octets.now other
            → other ≡ result }
    {
        for option in Packet::new_unchecked(octets).into_options() {
            if let Some(overload) = said(option) {
                return Some(overload);
            }
        }
        None
    }
}

// What an option says, where it is an option 52 of one byte.
fn said(option: DhcpOption<'_>) -> Option<Overload>
    ensures { result ≡ said (value_of_option option.entry) }
{
    if option.kind != OPT_OPTION_OVERLOAD {
        return None;
    }
    match option.data {
        [number] => overload_of(*number),
        _ => None,
    }
}

// What a number says.
fn overload_of(number: u8) -> Option<Overload>
    ensures { result ≡ overload_of number }
{
    match number {
        1 => Some(Overload::File),
        2 => Some(Overload::Sname),
        3 => Some(Overload::FileAndSname),
        _ => None,
    }
}
