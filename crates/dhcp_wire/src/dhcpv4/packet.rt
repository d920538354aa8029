//! A view of the octets of a packet.

ghost use Rattle.std.specs.Prelude.{◌≡◌, ◌≤◌, ◌↔◌, [], ◌∷◌, List, length, IsTrue, IsOk, IfOk, replicate};
ghost use Rattle.std.specs.Borrow.{sem, follows, Array, u8 as byte};
ghost use Rattle.std.specs.Int.RustNames.{bit_and};
ghost use Rattle.byteorder.specs.Endian.{big_bytes};
ghost use Rattle.wirebase.specs.Bytes.{Reaches, byte_of, bytes_of, number_of, splice};
ghost use Rattle.wirebase.specs.Ethernet.{octets_of as ethernet_octets};
ghost use Rattle.wirebase.specs.HardwareAddress.{ethernet_of};
ghost use Rattle.wirebase.specs.Hardware.{hardware_number, hardware_of};
ghost use Rattle.wirebase.specs.Ipv4.{octets_of};
ghost use Rattle.wirebase.specs.View.{Sets, KeepsLen};
ghost use Rattle.dhcp_wire.specs.Dhcpv4Packet.{inner, with_inner, op_field, htype_field, hlen_field, hops_field};
ghost use Rattle.dhcp_wire.specs.Dhcpv4Packet.{xid_field, secs_field, flags_field, ciaddr_field, yiaddr_field};
ghost use Rattle.dhcp_wire.specs.Dhcpv4Packet.{siaddr_field, giaddr_field, chaddr_field, names_field, magic_field};
ghost use Rattle.dhcp_wire.specs.Dhcpv4Packet.{options_in};
ghost use Rattle.dhcp_wire.specs.Dhcpv4Tables.{opcode_number, opcode_of, flag_bits};

use super::options::{DhcpOptionWriter, OptionsIter};
use super::tables::{Flags, OpCode};
use bitflags::Flags as _;
use wirebase::{Error, EthernetAddress, Hardware, Ipv4Address, Octets, OctetsMut, Result};

// The fields of a packet (RFC 2131 section 2); their picture is in specs/Dhcpv4Packet.antt.
pub(super) mod field {
    use wirebase::Field;

    pub const OP: Field = 0..1;

    pub const HTYPE: Field = 1..2;

    pub const HLEN: Field = 2..3;

    pub const HOPS: Field = 3..4;

    pub const XID: Field = 4..8;

    pub const SECS: Field = 8..10;

    pub const FLAGS: Field = 10..12;

    pub const CIADDR: Field = 12..16;

    pub const YIADDR: Field = 16..20;

    pub const SIADDR: Field = 20..24;

    pub const GIADDR: Field = 24..28;

    pub const CHADDR: Field = 28..34;

    pub const SNAME: Field = 34..108;

    pub const FILE: Field = 108..236;

    pub const SNAME_AND_FILE: Field = 34..236;

    pub const MAGIC_NUMBER: Field = 236..240;

    pub const OPTIONS: usize = 240;
}

/// A view of the octets of a packet.
#[derive(Debug, Clone, Copy)]
pub struct Packet<T: Octets> {
    pub(super) buffer: T,
}

/// Views are equal exactly when their octets are equal.
impl<T: Octets> PartialEq for Packet<T> {
    ghost use Rattle.std.specs.Prelude.{◌==◌};
    ghost use Rattle.std.proofs.Common.{rules};
    ghost use Rattle.std.specs.Cmp.Lexicographic.{pointwise};
    ghost use Rattle.std.specs.Cmp.Rules.{comparing};
    ghost use Rattle.std.specs.Ordering.{on};

    ghost eq = { on (λ view. T.bytes (inner view)) (pointwise ◌==◌) };

    ghost laws = { Prim.search (comparing, rules) };

    fn eq(&self, other: &Packet<T>) -> bool
        ensures { IsTrue result ↔ (T.bytes (inner self.now) ≡ T.bytes (inner other.now)) }
    {
        self.buffer.octets() == other.buffer.octets()
    }
}

impl<T: Octets> Eq for Packet<T> {
    ghost use Rattle.std.proofs.Common.{rules};
    ghost use Rattle.std.specs.Cmp.Rules.{comparing};

    ghost laws = { Prim.search (comparing, rules) };
}

impl<T: Octets> Packet<T> {
    /// Makes a view of `buffer`; its length is not checked.
    pub const fn new_unchecked(buffer: T) -> Packet<T>
        ensures { inner result ≡ buffer }
    {
        Packet { buffer }
    }

    /// Makes a view of `buffer`. Refused where it has fewer than 240 octets. On refusal the buffer is dropped: to keep
    /// a `&mut [u8]`, call `new_unchecked` and then `check_len`.
    pub fn new_checked(buffer: T) -> Result<Packet<T>>
        ensures accepts { IsOk result ↔ Reaches magic_field (T.bytes buffer) }
        ensures buffer { IfOk result (λ view. inner view ≡ buffer) }
    {
        let packet = Packet::new_unchecked(buffer);
        packet.check_len()?;
        Ok(packet)
    }

    /// Accepts 240 octets or more. Then each accessor may be called.
    pub fn check_len(&self) -> Result<()>
        ensures accepts { IsOk result ↔ Reaches magic_field (T.bytes (inner self.now)) }
    {
        if self.buffer.octets().len() < field::OPTIONS {
            return Err(Error);
        }
        Ok(())
    }

    /// Returns the buffer of the view.
    pub fn into_inner(self) -> T
        ensures { result ≡ inner self }
    {
        self.buffer
    }

    /// Whether the packet is a client's request or a server's reply. Requires at least 1 byte.
    pub fn opcode(&self) -> OpCode
        requires { Reaches op_field (T.bytes (inner self.now)) }
        ensures { result ≡ opcode_of (byte_of op_field (T.bytes (inner self.now))) }
    {
        OpCode::from(self.buffer.u8_at(field::OP))
    }

    /// The kind of hardware of the client's network. Requires at least 2 bytes.
    pub fn hardware_type(&self) -> Hardware
        requires { Reaches htype_field (T.bytes (inner self.now)) }
        ensures { result ≡ hardware_of (byte_of htype_field (T.bytes (inner self.now))) }
    {
        Hardware::from(self.buffer.u8_at(field::HTYPE) as u16)
    }

    /// The bytes of a hardware address. Requires at least 3 bytes.
    pub fn hardware_len(&self) -> u8
        requires { Reaches hlen_field (T.bytes (inner self.now)) }
        ensures { result ≡ byte_of hlen_field (T.bytes (inner self.now)) }
    {
        self.buffer.u8_at(field::HLEN)
    }

    /// The number that a client chose for this exchange. Requires at least 8 bytes.
    pub fn transaction_id(&self) -> u32
        requires { Reaches xid_field (T.bytes (inner self.now)) }
        ensures { result ≡ number_of xid_field (T.bytes (inner self.now)) }
    {
        self.buffer.u32_at(field::XID)
    }

    /// The client's address on its network, of Ethernet. Requires at least 34 bytes.
    pub fn client_hardware_address(&self) -> EthernetAddress
        requires { Reaches chaddr_field (T.bytes (inner self.now)) }
        ensures { ethernet_octets (ethernet_of result) ≡ bytes_of chaddr_field (T.bytes (inner self.now)) }
    {
        EthernetAddress::from_bytes(self.buffer.field(field::CHADDR))
    }

    /// How many relays the packet has passed. Requires at least 4 bytes.
    pub fn hops(&self) -> u8
        requires { Reaches hops_field (T.bytes (inner self.now)) }
        ensures { result ≡ byte_of hops_field (T.bytes (inner self.now)) }
    {
        self.buffer.u8_at(field::HOPS)
    }

    /// The seconds since the client began. Requires at least 10 bytes.
    pub fn secs(&self) -> u16
        requires { Reaches secs_field (T.bytes (inner self.now)) }
        ensures { result ≡ number_of secs_field (T.bytes (inner self.now)) }
    {
        self.buffer.u16_at(field::SECS)
    }

    /// The number before the options; that of DHCP is 0x63825363 (RFC 2131 section 3). Requires at least 240 bytes.
    pub fn magic_number(&self) -> u32
        requires { Reaches magic_field (T.bytes (inner self.now)) }
        ensures { result ≡ number_of magic_field (T.bytes (inner self.now)) }
    {
        self.buffer.u32_at(field::MAGIC_NUMBER)
    }

    /// The address that the client has, or 0.0.0.0. Requires at least 16 bytes.
    pub fn client_ip(&self) -> Ipv4Address
        requires { Reaches ciaddr_field (T.bytes (inner self.now)) }
        ensures { octets_of result ≡ bytes_of ciaddr_field (T.bytes (inner self.now)) }
    {
        ipv4_address(self.buffer.field(field::CIADDR))
    }

    /// The address that the client is given, or 0.0.0.0. Requires at least 20 bytes.
    pub fn your_ip(&self) -> Ipv4Address
        requires { Reaches yiaddr_field (T.bytes (inner self.now)) }
        ensures { octets_of result ≡ bytes_of yiaddr_field (T.bytes (inner self.now)) }
    {
        ipv4_address(self.buffer.field(field::YIADDR))
    }

    /// The server to start from, or 0.0.0.0. Requires at least 24 bytes.
    pub fn server_ip(&self) -> Ipv4Address
        requires { Reaches siaddr_field (T.bytes (inner self.now)) }
        ensures { octets_of result ≡ bytes_of siaddr_field (T.bytes (inner self.now)) }
    {
        ipv4_address(self.buffer.field(field::SIADDR))
    }

    /// The relay that the packet came by, or 0.0.0.0. Requires at least 28 bytes.
    pub fn relay_agent_ip(&self) -> Ipv4Address
        requires { Reaches giaddr_field (T.bytes (inner self.now)) }
        ensures { octets_of result ≡ bytes_of giaddr_field (T.bytes (inner self.now)) }
    {
        ipv4_address(self.buffer.field(field::GIADDR))
    }

    /// The flags that have a name; the other bits are ignored. Requires at least 12 bytes.
    #[tactic(auto, unfolding(bitflags::specs::Sets::known_from))]
    pub fn flags(&self) -> Flags
        requires { Reaches flags_field (T.bytes (inner self.now)) }
        ensures { flag_bits result ≡ bit_and (number_of flags_field (T.bytes (inner self.now)))
            0x8000 }
    {
        Flags::from_bits_truncate(self.buffer.u16_at(field::FLAGS))
    }
}

impl<T: Octets> Packet<T> {
    ghost use Rattle.dhcp_wire.specs.Dhcpv4Options.{OptionValue, Options};

    /// The options in turn. Requires at least 240 bytes.
    ///
    /// ```
    /// use control_wire::dhcpv4::Packet;
    ///
    /// let mut octets = vec![0; 240];
    /// octets.extend([53, 1, 2, 51, 4, 0, 0, 0x0e, 0x10, 255]);
    /// let packet = Packet::new_checked(octets)?;
    /// let mut options = packet.options();
    /// assert_eq!(options.next().unwrap().to_string(), "message-type=OFFER");
    /// assert_eq!(options.clone().next().unwrap().to_string(), "lease-time=3600");
    /// assert_eq!(options.count(), 1);
    /// # Ok::<(), control_wire::Error>(())
    /// ```
    pub fn options(&self) -> OptionsIter<'_>
        requires { Reaches magic_field (T.bytes (inner self.now)) }
        ensures options { Options (options_in (T.bytes (inner self.now))) result }
        ensures unique { (others : List OptionValue) → Options (options_in (T.bytes (inner self.now))) others
            → others ≡ result }
    {
        OptionsIter::new(&self.buffer.octets()[field::OPTIONS..])
    }
}

impl<'a> Packet<&'a [u8]> {
    ghost use Rattle.dhcp_wire.specs.Dhcpv4Options.{OptionValue, Options};

    /// The options in turn, for as long as the octets live, which may be longer than the view. Requires at least 240
    /// bytes.
    pub fn into_options(self) -> OptionsIter<'a>
        requires { Reaches magic_field (inner self).now }
        ensures options { Options (options_in (inner self.entry).now) result }
        ensures unique { (others : List OptionValue) → Options (options_in (inner self.entry).now) others
            → others ≡ result }
    {
        let octets: &'a [u8] = self.buffer;
        OptionsIter::new(&octets[field::OPTIONS..])
    }
}

impl<T: OctetsMut> Packet<T> {
    ghost use Rattle.dhcp_wire.specs.Dhcpv4Writer.{settled, free, the_slice};
    ghost use Rattle.dhcp_wire.specs.contracts.dhcpv4.packet.Packet.{the_row};

    /// Writes zeros for the names of a server and of a file to start from. Requires at least 236 bytes.
    pub fn set_sname_and_boot_file_to_zero(&mut self)
        requires { Reaches names_field (T.bytes (inner self.old)) }
        ensures writes { Sets inner T.bytes T.put self.old self.new names_field (replicate 202 0) }
        ensures len { KeepsLen inner T.bytes self.old self.new }
    {
        self.buffer.field_mut(field::SNAME_AND_FILE).fill(0);
    }

    /// Writes whether the packet is a client's request or a server's reply. Requires at least 1 byte.
    pub fn set_opcode(&mut self, value: OpCode)
        requires { Reaches op_field (T.bytes (inner self.old)) }
        ensures writes { Sets inner T.bytes T.put self.old self.new op_field (opcode_number value ∷ []) }
        ensures len { KeepsLen inner T.bytes self.old self.new }
    {
        self.buffer.set_u8(field::OP, value.into());
    }

    /// Writes the kind of hardware, whose number has to fit a byte. Requires at least 2 bytes.
    pub fn set_hardware_type(&mut self, value: Hardware)
        requires room { Reaches htype_field (T.bytes (inner self.old)) }
        requires small { hardware_number value ≤ 255 }
        ensures writes { Sets inner T.bytes T.put self.old self.new htype_field
            (hardware_number value ∷ []) }
        ensures len { KeepsLen inner T.bytes self.old self.new }
    {
        self.buffer.set_u8(field::HTYPE, u16::from(value) as u8);
    }

    /// Writes the bytes of a hardware address. Requires at least 3 bytes.
    pub fn set_hardware_len(&mut self, value: u8)
        requires { Reaches hlen_field (T.bytes (inner self.old)) }
        ensures writes { Sets inner T.bytes T.put self.old self.new hlen_field (value ∷ []) }
        ensures len { KeepsLen inner T.bytes self.old self.new }
    {
        self.buffer.set_u8(field::HLEN, value);
    }

    /// Writes the number that a client chose for this exchange. Requires at least 8 bytes.
    pub fn set_transaction_id(&mut self, value: u32)
        requires { Reaches xid_field (T.bytes (inner self.old)) }
        ensures writes { Sets inner T.bytes T.put self.old self.new xid_field (big_bytes 4 value) }
        ensures len { KeepsLen inner T.bytes self.old self.new }
    {
        self.buffer.set_u32(field::XID, value);
    }

    /// Writes the client's address on its network. Requires at least 34 bytes.
    pub fn set_client_hardware_address(&mut self, value: EthernetAddress)
        requires { Reaches chaddr_field (T.bytes (inner self.old)) }
        ensures writes { Sets inner T.bytes T.put self.old self.new chaddr_field
            (ethernet_octets (ethernet_of value)) }
        ensures len { KeepsLen inner T.bytes self.old self.new }
    {
        self.buffer.set_bytes(field::CHADDR, value.as_bytes());
    }

    /// Writes how many relays the packet has passed. Requires at least 4 bytes.
    pub fn set_hops(&mut self, value: u8)
        requires { Reaches hops_field (T.bytes (inner self.old)) }
        ensures writes { Sets inner T.bytes T.put self.old self.new hops_field (value ∷ []) }
        ensures len { KeepsLen inner T.bytes self.old self.new }
    {
        self.buffer.set_u8(field::HOPS, value);
    }

    /// Writes the seconds since the client began. Requires at least 10 bytes.
    pub fn set_secs(&mut self, value: u16)
        requires { Reaches secs_field (T.bytes (inner self.old)) }
        ensures writes { Sets inner T.bytes T.put self.old self.new secs_field (big_bytes 2 value) }
        ensures len { KeepsLen inner T.bytes self.old self.new }
    {
        self.buffer.set_u16(field::SECS, value);
    }

    /// Writes the number before the options. Requires at least 240 bytes.
    pub fn set_magic_number(&mut self, value: u32)
        requires { Reaches magic_field (T.bytes (inner self.old)) }
        ensures writes { Sets inner T.bytes T.put self.old self.new magic_field (big_bytes 4 value) }
        ensures len { KeepsLen inner T.bytes self.old self.new }
    {
        self.buffer.set_u32(field::MAGIC_NUMBER, value);
    }

    /// Writes the address that the client has. Requires at least 16 bytes.
    pub fn set_client_ip(&mut self, value: Ipv4Address)
        requires { Reaches ciaddr_field (T.bytes (inner self.old)) }
        ensures writes { Sets inner T.bytes T.put self.old self.new ciaddr_field (octets_of value) }
        ensures len { KeepsLen inner T.bytes self.old self.new }
    {
        self.buffer.set_bytes(field::CIADDR, &value.octets());
    }

    /// Writes the address that the client is given. Requires at least 20 bytes.
    pub fn set_your_ip(&mut self, value: Ipv4Address)
        requires { Reaches yiaddr_field (T.bytes (inner self.old)) }
        ensures writes { Sets inner T.bytes T.put self.old self.new yiaddr_field (octets_of value) }
        ensures len { KeepsLen inner T.bytes self.old self.new }
    {
        self.buffer.set_bytes(field::YIADDR, &value.octets());
    }

    /// Writes the server to start from. Requires at least 24 bytes.
    pub fn set_server_ip(&mut self, value: Ipv4Address)
        requires { Reaches siaddr_field (T.bytes (inner self.old)) }
        ensures writes { Sets inner T.bytes T.put self.old self.new siaddr_field (octets_of value) }
        ensures len { KeepsLen inner T.bytes self.old self.new }
    {
        self.buffer.set_bytes(field::SIADDR, &value.octets());
    }

    /// Writes the relay that the packet came by. Requires at least 28 bytes.
    pub fn set_relay_agent_ip(&mut self, value: Ipv4Address)
        requires { Reaches giaddr_field (T.bytes (inner self.old)) }
        ensures writes { Sets inner T.bytes T.put self.old self.new giaddr_field (octets_of value) }
        ensures len { KeepsLen inner T.bytes self.old self.new }
    {
        self.buffer.set_bytes(field::GIADDR, &value.octets());
    }

    /// Writes the flags, with every bit of the value. Requires at least 12 bytes.
    pub fn set_flags(&mut self, value: Flags)
        requires { Reaches flags_field (T.bytes (inner self.old)) }
        ensures writes { Sets inner T.bytes T.put self.old self.new flags_field
            (big_bytes 2 (flag_bits value)) }
        ensures len { KeepsLen inner T.bytes self.old self.new }
    {
        self.buffer.set_u16(field::FLAGS, value.bits());
    }

    /// A writer over the options: all octets from 240 on, which are free. The view then holds what is written there.
    /// Requires at least 240 bytes.
    pub fn options_mut(&mut self) -> DhcpOptionWriter<'_>
        requires { Reaches magic_field (T.bytes (inner self.old)) }
        ensures* lends { sem 𝓛 (follows (the_row T.row) (Array byte 0) self.entry.ghost_name
            (the_slice result) (λ w. with_inner self.old (T.put (inner self.old)
            (splice (T.bytes (inner self.old)) 240 (length (T.bytes (inner self.old))) w)))) }
        ensures settled { settled result ≡ [] }
        ensures free { free result ≡ options_in (T.bytes (inner self.old)) }
    {
        let len = self.buffer.octets().len();
        DhcpOptionWriter::new(self.buffer.range_mut(field::OPTIONS, len))
    }
}

// The address of four octets.
#[inline]
fn ipv4_address(octets: &[u8]) -> Ipv4Address
    requires { length octets.now ≡ 4 }
    ensures { octets_of result ≡ octets.now }
{
    Ipv4Address::from_octets(octets.try_into().unwrap())
}
