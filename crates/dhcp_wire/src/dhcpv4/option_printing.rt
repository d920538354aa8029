//! Options as texts.

ghost use Rattle.std.specs.Prelude.{◌++◌, Some, codes, flat_map};
ghost use Rattle.std.specs.Fmt.{WritesOnOk};
ghost use Rattle.wirebase.specs.Ipv4.{address_text};
ghost use Rattle.dhcp_wire.specs.Dhcpv4Display.{commas};
ghost use Rattle.dhcp_wire.specs.Dhcpv4OptionDisplay.{option_display, content_display, quoted, character};
ghost use Rattle.dhcp_wire.specs.Dhcpv4OptionValue.{content_of, addresses_in};
ghost use Rattle.dhcp_wire.specs.Dhcpv4Options.{value_of_option};

use super::options::DhcpOption;
use super::printing::Kinds;
use super::value::{OptionAddresses, OptionValue, first_address};
use std::fmt;
use wirebase::text::{Hex, HexColons};

/// Prints the name of the kind and the data by its format, as `lease-time=3600`; a kind that has no name here prints
/// its number, as `option-224=01:02`.
impl fmt::Display for DhcpOption<'_> {
    ghost output = { λ option. Some (option_display (value_of_option option)) };

    fn fmt<W: fmt::Write>(&self, f: &mut fmt::Formatter<W>) -> fmt::Result {
        let kind = self.kind;
        let value = self.value();
        match self.name() {
            Some(name) => write!(f, "{name}={value}"),
            None => write!(f, "option-{kind}={value}"),
        }
    }
}

/// Prints addresses and numbers with commas between them, a type of message by its name, a text in quotation marks, and
/// other data as two hexadecimal digits a byte, with colons between them. In a text, a quotation mark and a backslash
/// are printed after a backslash, and a byte that is neither a visible character of ASCII nor a space is printed as
/// `\x` and two digits.
impl fmt::Display for OptionValue<'_> {
    ghost output = { λ value. Some (content_display (content_of value)) };

    fn fmt<W: fmt::Write>(&self, f: &mut fmt::Formatter<W>) -> fmt::Result {
        match *self {
            OptionValue::Address(address) => write!(f, "{address}"),
            OptionValue::Addresses(octets) => Addresses(octets).fmt(f),
            OptionValue::Seconds(seconds) => write!(f, "{seconds}"),
            OptionValue::Number(number) => write!(f, "{number}"),
            OptionValue::Byte(byte) => write!(f, "{byte}"),
            OptionValue::MessageType(message_type) => write!(f, "{message_type}"),
            OptionValue::Text(octets) => Quoted(octets).fmt(f),
            OptionValue::Kinds(kinds) => Kinds(kinds).fmt(f),
            OptionValue::Octets(octets) => HexColons(octets).fmt(f),
        }
    }
}

// The addresses in octets, with commas between them.
#[derive(Clone, Copy)]
struct Addresses<'a>(&'a [u8]);

impl fmt::Display for Addresses<'_> {
    ghost output = { λ addresses. Some (commas address_text (addresses_in addresses.0.now)) };

    fn fmt<W: fmt::Write>(&self, f: &mut fmt::Formatter<W>) -> fmt::Result {
        let Some((first, rest)) = first_address(self.0) else {
            return Ok(());
        };
        write!(f, "{first}")?;
        fmt_more_addresses(f, rest)
    }
}

// Prints each address after a comma.
fn fmt_more_addresses<W: fmt::Write>(f: &mut fmt::Formatter<W>, octets: &[u8]) -> fmt::Result
    ensures { WritesOnOk W.write_str_gives f.old result
        (flat_map (λ next. codes "," ++ address_text next) (addresses_in octets.now)) f.new }
{
    for address in OptionAddresses::new(octets) {
        write!(f, ",{address}")?;
    }
    Ok(())
}

// A text in quotation marks.
#[derive(Clone, Copy)]
struct Quoted<'a>(&'a [u8]);

impl fmt::Display for Quoted<'_> {
    ghost output = { λ text. Some (quoted text.0.now) };

    fn fmt<W: fmt::Write>(&self, f: &mut fmt::Formatter<W>) -> fmt::Result {
        f.write_str("\"")?;
        fmt_characters(f, self.0)?;
        f.write_str("\"")
    }
}

// Prints the characters of a text.
fn fmt_characters<W: fmt::Write>(f: &mut fmt::Formatter<W>, octets: &[u8]) -> fmt::Result
    ensures { WritesOnOk W.write_str_gives f.old result (flat_map character octets.now) f.new }
{
    for byte in octets {
        write!(f, "{}", Character(*byte))?;
    }
    Ok(())
}

// A byte of a text.
#[derive(Clone, Copy)]
struct Character(u8);

impl fmt::Display for Character {
    ghost output = { λ byte. Some (character byte.0) };

    fn fmt<W: fmt::Write>(&self, f: &mut fmt::Formatter<W>) -> fmt::Result {
        match self.0 {
            b'"' => f.write_str("\\\""),
            b'\\' => f.write_str("\\\\"),
            visible @ b' '..=b'~' => write!(f, "{}", visible as char),
            other => write!(f, "\\x{}", Hex(&[other])),
        }
    }
}
