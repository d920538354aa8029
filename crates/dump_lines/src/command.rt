//! The commands: how the word before a packet tells to read it.

ghost use Rattle.std.specs.Prelude.{◌≡◌, OnOk, map};
ghost use Rattle.packet_fields.specs.Output.{GainsSome};

use crate::words::{is_word, read_address, read_offset};
use listing::dhcp::show_dhcp;
use listing::hbh::show_hbh;
use listing::icmp4::show_icmp4;
use listing::icmp6::show_icmp6;
use listing::igmp::show_igmp;
use listing::mld::show_mld;
use listing::name::show_name;
use listing::ndopt::show_ndopt;
use listing::question::show_question;
use std::io;
use std::io::Write;

/// The way in which a packet is read.
#[derive(Clone, Copy)]
pub enum Command {
    /// As the options of a hop-by-hop header of IPv6.
    Hbh,
    /// As an ICMPv4 message.
    Icmp4,
    /// As an IGMP message.
    Igmp,
    /// As an ICMPv6 message from one address to another.
    Icmp6([u8; 16], [u8; 16]),
    /// As a message of multicast listener discovery.
    Mld,
    /// As an option of neighbor discovery.
    Ndopt,
    /// As a DHCP packet.
    Dhcp,
    /// As a question of DNS.
    Question,
    /// As a DNS message, by the walk over the name that begins at this offset.
    Name(usize),
}

impl Command {
    ghost use Rattle.dump_lines.specs.Listing.{command_alone, command_of, reads, PacketPrints};

    /// The command of a word and of the words between it and the packet; None where there is no such command.
    #[inline]
    pub fn of(word: &[u8], arguments: &[&[u8]]) -> Option<Command>
        ensures { result ≡ command_of word.now (map (λ argument. argument.now) arguments.now) }
    {
        match arguments {
            [] => Command::alone(word),
            [offset] if is_word(word, "name") => Some(Command::Name(read_offset(offset)?)),
            [source, destination] if is_word(word, "icmp6") => {
                Some(Command::Icmp6(read_address(source)?, read_address(destination)?))
            }
            _ => None,
        }
    }

    // The command of a word without further words.
    #[inline]
    fn alone(word: &[u8]) -> Option<Command>
        ensures { result ≡ command_alone word.now }
    {
        if is_word(word, "hbh") {
            Some(Command::Hbh)
        } else if is_word(word, "icmp4") {
            Some(Command::Icmp4)
        } else if is_word(word, "igmp") {
            Some(Command::Igmp)
        } else if is_word(word, "mld") {
            Some(Command::Mld)
        } else if is_word(word, "ndopt") {
            Some(Command::Ndopt)
        } else if is_word(word, "dhcp") {
            Some(Command::Dhcp)
        } else if is_word(word, "question") {
            Some(Command::Question)
        } else {
            None
        }
    }

    /// Whether the command can read these octets, even if it then refuses them: an offset may not be past their end.
    pub fn reads(self, packet: &[u8]) -> bool
        ensures { result ≡ reads self packet.now }
    {
        match self {
            Command::Name(offset) => offset <= packet.len(),
            _ => true,
        }
    }

    /// Prints what a packet holds, read by this command.
    pub fn show<W: Write>(self, output: &mut W, packet: &[u8]) -> io::Result<()>
        ensures { OnOk result (GainsSome (W.contents output.old) (W.contents output.new)
            (PacketPrints self packet.now)) }
    {
        match self {
            Command::Hbh => show_hbh(output, packet),
            Command::Icmp4 => show_icmp4(output, packet),
            Command::Igmp => show_igmp(output, packet),
            Command::Icmp6(source, destination) => show_icmp6(output, source, destination, packet),
            Command::Mld => show_mld(output, packet),
            Command::Ndopt => show_ndopt(output, packet),
            Command::Dhcp => show_dhcp(output, packet),
            Command::Question => show_question(output, packet),
            Command::Name(offset) => show_name(output, offset, packet),
        }
    }
}
