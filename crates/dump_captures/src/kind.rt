//! The kinds of control packets, and the reasons for which one is refused.

ghost use Rattle.std.specs.Prelude.{◌≡◌, ◌<◌};
ghost use Rattle.dump_captures.specs.Kinds.{kind_text, kind_place, reason_text, reason_place};

/// The number of kinds.
pub const KINDS: usize = 9;

/// The number of reasons.
pub const REASONS: usize = 8;

/// The kinds of control packets.
#[derive(Debug, PartialEq, Eq, Clone, Copy)]
pub enum Kind {
    /// An ICMPv4 message.
    Icmp4,
    /// An IGMP message.
    Igmp,
    /// An ICMPv6 message, of which neighbor discovery and multicast listener discovery are parts.
    Icmp6,
    /// A DNS message.
    Dns,
    /// A message of multicast DNS.
    Mdns,
    /// A message of link-local multicast name resolution.
    Llmnr,
    /// A message of the NetBIOS name service.
    Nbns,
    /// A DHCP packet.
    Dhcp,
    /// A packet whose kind can't be told, since too little of it can be read.
    Frame,
}

impl Kind {
    /// All kinds, in the order of tables.
    pub const ALL: [Kind; KINDS] = [
        Kind::Icmp4,
        Kind::Igmp,
        Kind::Icmp6,
        Kind::Dns,
        Kind::Mdns,
        Kind::Llmnr,
        Kind::Nbns,
        Kind::Dhcp,
        Kind::Frame,
    ];

    /// The name.
    #[inline]
    pub fn name(self) -> &'static str
        ensures { result.now ≡ kind_text self }
    {
        match self {
            Kind::Icmp4 => "icmp4",
            Kind::Igmp => "igmp",
            Kind::Icmp6 => "icmp6",
            Kind::Dns => "dns",
            Kind::Mdns => "mdns",
            Kind::Llmnr => "llmnr",
            Kind::Nbns => "nbns",
            Kind::Dhcp => "dhcp",
            Kind::Frame => "frame",
        }
    }

    /// The index in `ALL`, from 0 on.
    #[inline]
    pub fn place(self) -> usize
        ensures value { result ≡ kind_place self }
        ensures bound { result < 9 }
    {
        self as usize
    }
}

/// Why a control packet is refused.
#[derive(Debug, PartialEq, Eq, Clone, Copy)]
pub enum Reason {
    /// It ends too early, and the capture kept only a part of it.
    Cut,
    /// It is a fragment of a datagram.
    Fragment,
    /// Fewer bytes than a header's own length says, or than the message's header has.
    Short,
    /// Its checksum is wrong.
    Checksum,
    /// Its type is not supported.
    UnknownType,
    /// The quote in an ICMP error is not the start of a datagram.
    Quote,
    /// A name of a DNS message is malformed.
    Name,
    /// Its format refuses it for another reason.
    Malformed,
}

impl Reason {
    /// All reasons, in the order of tables.
    pub const ALL: [Reason; REASONS] = [
        Reason::Cut,
        Reason::Fragment,
        Reason::Short,
        Reason::Checksum,
        Reason::UnknownType,
        Reason::Quote,
        Reason::Name,
        Reason::Malformed,
    ];

    /// The name.
    #[inline]
    pub fn name(self) -> &'static str
        ensures { result.now ≡ reason_text self }
    {
        match self {
            Reason::Cut => "cut",
            Reason::Fragment => "fragment",
            Reason::Short => "short",
            Reason::Checksum => "checksum",
            Reason::UnknownType => "type",
            Reason::Quote => "quote",
            Reason::Name => "name",
            Reason::Malformed => "malformed",
        }
    }

    /// The index in `ALL`, from 0 on.
    #[inline]
    pub fn place(self) -> usize
        ensures value { result ≡ reason_place self }
        ensures bound { result < 8 }
    {
        self as usize
    }
}
