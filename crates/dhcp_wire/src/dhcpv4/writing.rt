//! Writes values.

ghost use Rattle.std.specs.Prelude.{◌≡◌, ◌≤◌, ◌+◌, ◌∷◌, [], Ok, length, map, take, drop};
ghost use Rattle.std.specs.Option.{option_map};
ghost use Rattle.wirebase.specs.Bytes.{Reaches};
ghost use Rattle.wirebase.specs.ByteWriter.{Puts, free as free_bytes};
ghost use Rattle.wirebase.specs.Format.{SameText};
ghost use Rattle.wirebase.specs.Ethernet.{octets_of as ethernet_octets};
ghost use Rattle.wirebase.specs.HardwareAddress.{ethernet_of};
ghost use Rattle.wirebase.specs.Ipv4.{octets_of};
ghost use Rattle.dhcp_wire.specs.Dhcpv4.{value_of, slot, slots_of, options_of, header_fields, text};
ghost use Rattle.dhcp_wire.specs.private.Dhcpv4Writing.{WritesOptions, progress, step_slot, steps, step_all};
ghost use Rattle.dhcp_wire.specs.Dhcpv4Format.{data_len, fields_len, text_len, format, Emits};
ghost use Rattle.dhcp_wire.specs.Dhcpv4Options.{value_of_option};
ghost use Rattle.dhcp_wire.specs.Dhcpv4Packet.{inner, magic_field, ethernet_type};
ghost use Rattle.dhcp_wire.specs.Dhcpv4Writer.{the_slice};

use super::option_data::Data;
use super::option_kinds::*;
use super::options::{DhcpOption, DhcpOptionWriter};
use super::packet::{Packet, field};
use super::repr::{ETHERNET, ETHERNET_LEN, MAGIC_NUMBER, Repr};
use super::tables::Flags;
use bitflags::Flags as _;
use wirebase::{ByteWriter, EthernetAddress, Ipv4Address, OctetsMut, Result};

impl Repr<'_> {
    /// The bytes that the packet takes: header, options and end mark. Requires that their number fits a `usize`.
    #[tactic(auto, using(crate::proofs::Dhcpv4Lengths::lengths))]
    pub fn buffer_len(&self) -> usize
        requires { text_len (value_of self.now) ≤ usize.MAX }
        ensures value { result ≡ text_len (value_of self.now) }
        ensures exact { result ≡ length (text (value_of self.now)) }
    {
        let mut len = self.fields_len();
        for option in self.additional_options {
            len += 2 + option.data.len();
        }
        len
    }

    /// Writes the packet over the front of the octets; the other octets are unchanged. Requires at least 240 bytes.
    /// Refused where the request list, or the data of an additional option, has more than 255 bytes, and where there is
    /// no room for all options and the end mark; then the header and the options before the first that is refused are
    /// written, and no end mark.
    pub fn emit<T: OctetsMut>(&self, packet: &mut Packet<T>) -> Result<()>
        requires { Reaches magic_field (T.bytes (inner packet.old)) }
        ensures place { inner packet.new ≡ T.put (inner packet.old) (T.bytes (inner packet.new)) }
        ensures emits { Emits (value_of self.now) (T.bytes (inner packet.old)) result
            (T.bytes (inner packet.new)) }
    {
        self.emit_into(packet.buffer.octets_mut())
    }

    /// Like `emit`, but writes into a slice.
    pub fn emit_into(&self, octets: &mut [u8]) -> Result<()>
        requires { Reaches magic_field octets.old }
        ensures { Emits (value_of self.now) octets.old result octets.new }
    {
        let mut w = ByteWriter::new(octets);
        self.put_header(&mut w);
        let room = w.free();
        self.write_options(w.part(room))
    }

    /// Does nothing; its contract states, of two values that a packet can hold, that equal texts mean equal normal
    /// forms, and conversely unless one has additional options.
    pub fn same_text(a: &Self, b: &Self)
        ensures { SameText format (value_of a.now) (value_of b.now) }
    {}

    // The bytes of all but the additional options; the end mark takes one.
    fn fields_len(&self) -> usize
        requires { fields_len (value_of self.now) ≤ usize.MAX }
        ensures { result ≡ fields_len (value_of self.now) }
    {
        field::OPTIONS
            + 1
            + option_len(Some(self.message_type))
            + option_len(self.client_identifier)
            + option_len(self.server_identifier)
            + option_len(self.router)
            + option_len(self.subnet_mask)
            + option_len(self.requested_ip)
            + option_len(self.max_size)
            + option_len(self.lease_duration)
            + option_len(self.renew_duration)
            + option_len(self.rebind_duration)
            + option_len(self.parameter_request_list)
            + option_len(self.dns_servers.as_ref())
    }

    // Writes each field of the fixed part.
    fn put_header(&self, w: &mut ByteWriter<'_>)
        requires { 240 ≤ length (free_bytes w.old) }
        ensures puts { Puts w.old w.new (header_fields (value_of self.now)) }
    {
        self.put_numbers(w);
        self.put_header_addresses(w);
    }

    // Writes the numbers before the addresses of the fixed part.
    fn put_numbers(&self, w: &mut ByteWriter<'_>)
        requires { 240 ≤ length (free_bytes w.old) }
        ensures puts { Puts w.old w.new (take 7 (header_fields (value_of self.now))) }
        ensures room { length (free_bytes w.old) ≡ 12 + length (free_bytes w.new) }
    {
        let flags = if self.broadcast {
            Flags::BROADCAST.bits()
        } else {
            0
        };
        w.put_u8(self.message_type.opcode().into());
        w.put_u8(ETHERNET);
        w.put_u8(ETHERNET_LEN);
        w.put_u8(0);
        w.put_u32(self.transaction_id);
        w.put_u16(self.secs);
        w.put_u16(flags);
    }

    // Writes the addresses of the fixed part, and the fields after them.
    fn put_header_addresses(&self, w: &mut ByteWriter<'_>)
        requires { 228 ≤ length (free_bytes w.old) }
        ensures puts { Puts w.old w.new (drop 7 (header_fields (value_of self.now))) }
    {
        put_octets(w, self.client_ip);
        put_octets(w, self.your_ip);
        put_octets(w, self.server_ip);
        put_octets(w, self.relay_agent_ip);
        w.put_bytes(self.client_hardware_address.as_bytes());
        w.put_zeros(202);
        w.put_u32(MAGIC_NUMBER);
    }

    // Writes the options and the end mark over the front of the octets.
    fn write_options(&self, octets: &mut [u8]) -> Result<()>
        ensures { WritesOptions (options_of (value_of self.now)) octets.old result octets.new }
    {
        let mut w = DhcpOptionWriter::new(octets);
        self.put_options(&mut w)?;
        w.end()
    }

    // Writes the options, up to the first that is refused.
    fn put_options(&self, w: &mut DhcpOptionWriter<'_>) -> Result<()>
        ensures steps { progress w.new result
            ≡ step_all (progress w.old (Ok tt)) (options_of (value_of self.now)) }
        ensures same_slice { the_slice w.new ≡ the_slice w.old }
    {
        self.put_fields(w)?;
        put_all(w, self.additional_options)
    }

    // Writes the options of the fields, up to the first that is refused.
    #[tactic(auto, using(crate::proofs::Dhcpv4Writing::slots))]
    fn put_fields(&self, w: &mut DhcpOptionWriter<'_>) -> Result<()>
        ensures steps { progress w.new result
            ≡ steps (progress w.old (Ok tt)) (slots_of (value_of self.now)) }
        ensures same_slice { the_slice w.new ≡ the_slice w.old }
    {
        w.put(OPT_DHCP_MESSAGE_TYPE, Some(self.message_type))?;
        put_identifier(w, self.client_identifier)?;
        w.put(OPT_SERVER_IDENTIFIER, self.server_identifier)?;
        w.put(OPT_ROUTER, self.router)?;
        w.put(OPT_SUBNET_MASK, self.subnet_mask)?;
        w.put(OPT_REQUESTED_IP, self.requested_ip)?;
        w.put(OPT_MAX_DHCP_MESSAGE_SIZE, self.max_size)?;
        w.put(OPT_IP_LEASE_TIME, self.lease_duration)?;
        w.put(OPT_RENEWAL_TIME_VALUE, self.renew_duration)?;
        w.put(OPT_REBINDING_TIME_VALUE, self.rebind_duration)?;
        w.put(OPT_PARAMETER_REQUEST_LIST, self.parameter_request_list)?;
        w.put(OPT_DOMAIN_NAME_SERVER, self.dns_servers.as_ref())
    }
}

// Writes a client's identifier, where there is one.
fn put_identifier(w: &mut DhcpOptionWriter<'_>, identifier: Option<EthernetAddress>) -> Result<()>
    ensures step { progress w.new result ≡ step_slot (progress w.old (Ok tt))
        (slot OPT_CLIENT_ID (option_map (λ address. ethernet_type ∷ ethernet_octets address)
        (option_map ethernet_of identifier))) }
    ensures same_slice { the_slice w.new ≡ the_slice w.old }
{
    w.put(OPT_CLIENT_ID, identifier)
}

// Writes these options, up to the first that is refused.
#[tactic(auto, using(crate::proofs::Dhcpv4Writing::emission))]
fn put_all(w: &mut DhcpOptionWriter<'_>, options: &[DhcpOption<'_>]) -> Result<()>
    ensures steps { progress w.new result
        ≡ step_all (progress w.old (Ok tt)) (map value_of_option options.now) }
    ensures same_slice { the_slice w.new ≡ the_slice w.old }
{
    for option in options {
        w.emit(*option)?;
    }
    Ok(())
}

// Writes the octets of an address of the fixed part.
fn put_octets(w: &mut ByteWriter<'_>, address: Ipv4Address)
    requires { 4 ≤ length (free_bytes w.old) }
    ensures puts { Puts w.old w.new (octets_of address ∷ []) }
    ensures room { length (free_bytes w.old) ≡ 4 + length (free_bytes w.new) }
{
    w.put_bytes(&address.octets());
}

// The bytes of an option with this data, or 0 where there is none.
fn option_len<D: Data>(field: Option<D>) -> usize
    ensures { result ≡ data_len (option_map D.bytes field) }
{
    match field {
        Some(data) => 2 + data.len(),
        None => 0,
    }
}
