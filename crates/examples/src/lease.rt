//! A host that leases its address: the messages that a DHCP client sends, and what it takes from a server's answers
//! (RFC 2131 section 4.4). When and to whom a message is sent is decided by the caller.

ghost use Rattle.std.specs.Prelude.{◌≡◌, ◌≤◌, ◌↔◌, length, take, drop, IsTrue, IfSome, IsSome, IsSomeAnd, None};
ghost use Rattle.std.specs.Option.{option_map, option_or};
ghost use Rattle.control_wire.specs.Dhcpv4.{said, options_of, text, value_of as packet_value};
ghost use Rattle.control_wire.specs.Dhcpv4Format.{AllShort, text_len};
ghost use Rattle.control_wire.specs.Dhcpv4Options.{value_of_option};
ghost use Rattle.control_wire.specs.HardwareAddress.{ethernet_of};
ghost use Rattle.control_wire.specs.Ipv4.{octets_of};
ghost use Rattle.control_wire.specs.LastOf.{last_of};
ghost use Rattle.examples.specs.Lease.{client_of, message_of, sent, asked, padded, padded_len, lease_of, first_in};
ghost use Rattle.examples.specs.Lease.{AnswerValue, answer_of, Tells, Answers, value_of as lease_value};

use arrayvec::ArrayVec;
use control_wire::dhcpv4::{
    DhcpOption, MAX_DNS_SERVER_COUNT, MessageType, OPT_ROUTER, OptionsIter, Packet, Repr,
};
use control_wire::{EthernetAddress, Ipv4Address};

/// A client, and the form of its messages.
#[derive(Debug, Clone, Copy)]
pub struct Client<'a> {
    /// Its hardware address, by which servers know it too (option 61).
    pub address: EthernetAddress,
    /// Whether servers are to broadcast their answers: otherwise they send to an address that the client doesn't have
    /// yet, and a client on a UDP socket doesn't receive that (RFC 2131 section 4.1).
    pub broadcast: bool,
    /// The kinds of option that it requests (option 55), at most 255.
    pub requested: &'a [u8],
    /// The least length of a message in bytes. Some relays and servers drop messages of fewer than 300 (RFC 1542
    /// section 2.1); 0 adds no padding.
    pub min_len: usize,
}

/// A message that a client sends (RFC 2131 sections 4.3.6 and 4.4).
#[derive(Debug, PartialEq, Eq, Clone, Copy)]
pub enum Message {
    /// It looks for servers; broadcast.
    Discover,
    /// It requests the address that a server offered, in the exchange of the offer; broadcast.
    Select {
        /// The server.
        server: Ipv4Address,
        /// The address.
        address: Ipv4Address,
    },
    /// After a restart it requests its former address; broadcast.
    Reboot {
        /// The address.
        address: Ipv4Address,
    },
    /// It requests more time for its address; sent to the server that leased it.
    Renew {
        /// The address.
        address: Ipv4Address,
    },
    /// It requests more time, after that server didn't answer; broadcast.
    Rebind {
        /// The address.
        address: Ipv4Address,
    },
    /// The leased address is in use; broadcast.
    Decline {
        /// The server that leased it.
        server: Ipv4Address,
        /// The address.
        address: Ipv4Address,
    },
    /// It gives its address back; sent to the server that leased it.
    Release {
        /// The server.
        server: Ipv4Address,
        /// The address.
        address: Ipv4Address,
    },
}

/// What a client is given. Times are in seconds from the client's request; None where the server didn't say.
#[derive(Debug, Drop)]
pub struct Lease {
    /// The client's address, not 0.0.0.0.
    pub address: Ipv4Address,
    /// The server that gives it.
    pub server: Ipv4Address,
    /// The mask of the subnet.
    pub subnet_mask: Option<Ipv4Address>,
    /// The first router of the subnet that the server names.
    pub router: Option<Ipv4Address>,
    /// The DNS servers, the first ones.
    pub dns_servers: Option<ArrayVec<Ipv4Address, MAX_DNS_SERVER_COUNT>>,
    /// How long the address may be used.
    pub lease_duration: Option<u32>,
    /// When the client is to ask this server for more time (T1).
    pub renew_duration: Option<u32>,
    /// When the client is to ask any server (T2).
    pub rebind_duration: Option<u32>,
}

/// What a server's message says to a client.
#[derive(Debug, Drop)]
pub enum Answer {
    /// The lease is offered.
    Offer(Lease),
    /// The lease is granted.
    Ack(Lease),
    /// The server refuses the request: the client starts again.
    Nak(Ipv4Address),
}

/// Writes a client's message to the start of the octets, with zeros after it up to `min_len`, and returns its length in
/// bytes. None exactly where they are too short; then they are unchanged. Requires that the client requests at most 255
/// kinds of option.
pub fn write(
    message: &Message,
    transaction_id: u32,
    client: &Client<'_>,
    out: &mut [u8],
) -> Option<usize>
    requires { length client.now.requested.now ≤ 255 }
    ensures written { IfSome result (λ n. take n out.new
        ≡ padded client.now.min_len (message_of (client_of client.now) transaction_id message.now)) }
    ensures len { IfSome result (λ n. n
        ≡ padded_len client.now.min_len (message_of (client_of client.now) transaction_id message.now)) }
    ensures room { padded_len client.now.min_len (message_of (client_of client.now) transaction_id message.now)
        ≤ length out.old → IsSome result }
    ensures fits { IfSome result (λ n. n ≤ length out.new) }
    ensures rest { IfSome result (λ n. drop n out.new ≡ drop n out.old) }
    ensures unwritten { result ≡ None → out.new ≡ out.old }
{
    write_padded(&message.repr(transaction_id, client), client.min_len, out)
}

impl Message {
    // The message as the value of a packet.
    fn repr<'a>(&self, transaction_id: u32, client: &Client<'a>) -> Repr<'a>
        ensures { packet_value result ≡ message_of (client_of client.now) transaction_id self.now }
    {
        let none = Ipv4Address::UNSPECIFIED;
        match *self {
            Message::Discover => client.asks(
                MessageType::Discover,
                transaction_id,
                none,
                None,
                None,
            ),
            Message::Select { server, address } => client.asks(
                MessageType::Request,
                transaction_id,
                none,
                Some(address),
                Some(server),
            ),
            Message::Reboot { address } => client.asks(
                MessageType::Request,
                transaction_id,
                none,
                Some(address),
                None,
            ),
            Message::Renew { address } | Message::Rebind { address } => client.asks(
                MessageType::Request,
                transaction_id,
                address,
                None,
                None,
            ),
            Message::Decline { server, address } => client.sends(
                MessageType::Decline,
                transaction_id,
                none,
                Some(address),
                Some(server),
            ),
            Message::Release { server, address } => client.sends(
                MessageType::Release,
                transaction_id,
                address,
                None,
                Some(server),
            ),
        }
    }
}

impl<'a> Client<'a> {
    // A message that is to be answered, with the kinds of option that the client requests.
    fn asks(
        &self,
        message_type: MessageType,
        transaction_id: u32,
        own: Ipv4Address,
        address: Option<Ipv4Address>,
        server: Option<Ipv4Address>,
    ) -> Repr<'a>
        ensures { packet_value result
            ≡ asked (client_of self.now) transaction_id message_type own address server }
    {
        let mut repr = self.sends(message_type, transaction_id, own, address, server);
        repr.broadcast = self.broadcast;
        if !self.requested.is_empty() {
            repr.parameter_request_list = Some(self.requested);
        }
        repr
    }

    // A message of this type, in which the client has the first address, and names the second and a server.
    fn sends(
        &self,
        message_type: MessageType,
        transaction_id: u32,
        own: Ipv4Address,
        address: Option<Ipv4Address>,
        server: Option<Ipv4Address>,
    ) -> Repr<'a>
        ensures { packet_value result
            ≡ sent (ethernet_of self.now.address) transaction_id message_type own address server }
    {
        let none = Ipv4Address::UNSPECIFIED;
        Repr {
            message_type,
            transaction_id,
            secs: 0,
            client_hardware_address: self.address,
            client_ip: own,
            your_ip: none,
            server_ip: none,
            router: None,
            subnet_mask: None,
            relay_agent_ip: none,
            broadcast: false,
            requested_ip: address,
            client_identifier: Some(self.address),
            server_identifier: server,
            parameter_request_list: None,
            dns_servers: None,
            max_size: None,
            lease_duration: None,
            renew_duration: None,
            rebind_duration: None,
            additional_options: &[],
        }
    }
}

// Writes a packet to the start of the octets, with zeros after it up to this many bytes.
fn write_padded(repr: &Repr<'_>, min_len: usize, out: &mut [u8]) -> Option<usize>
    requires short { AllShort (options_of (packet_value repr.now)) }
    requires small { text_len (packet_value repr.now) ≤ 600 }
    requires whole { 240 ≤ text_len (packet_value repr.now) }
    ensures written { IfSome result (λ n. take n out.new ≡ padded min_len (packet_value repr.now)) }
    ensures len { IfSome result (λ n. n ≡ padded_len min_len (packet_value repr.now)) }
    ensures room { padded_len min_len (packet_value repr.now) ≤ length out.old → IsSome result }
    ensures fits { IfSome result (λ n. n ≤ length out.new) }
    ensures rest { IfSome result (λ n. drop n out.new ≡ drop n out.old) }
    ensures unwritten { result ≡ None → out.new ≡ out.old }
{
    let len = repr.buffer_len();
    let padded = len.max(min_len);
    if out.len() < padded {
        return None;
    }
    write_whole(repr, &mut out[..len]);
    out[len..padded].fill(0);
    Some(padded)
}

// Writes a packet into octets of its length.
fn write_whole(repr: &Repr<'_>, out: &mut [u8])
    requires short { AllShort (options_of (packet_value repr.now)) }
    requires whole { 240 ≤ text_len (packet_value repr.now) }
    requires room { length out.old ≡ text_len (packet_value repr.now) }
    ensures { out.new ≡ text (packet_value repr.now) }
{
    match repr.emit_into(out) {
        Ok(()) => {}
        Err(_) => unreachable!(),
    }
}

/// What a server's message says to this client in an exchange. None exactly where the octets are not an offer,
/// acknowledgement or refusal in this exchange for this client, where they do not name their server, and where they
/// give 0.0.0.0.
pub fn read_answer(octets: &[u8], transaction_id: u32, client: EthernetAddress) -> Option<Answer>
    ensures told { IfSome result (λ told.
        Answers octets.now transaction_id (ethernet_of client) (answer_of told)) }
    ensures all { (told : AnswerValue) → Answers octets.now transaction_id (ethernet_of client) told
        → IsSomeAnd result (λ read. answer_of read ≡ told) }
{
    let view = Packet::new_unchecked(octets);
    let repr = match Repr::parse(&view) {
        Ok(repr) => repr,
        Err(_) => return None,
    };
    if !is_for(&repr, transaction_id, client) {
        return None;
    }
    let Some(server) = repr.server_identifier else {
        return None;
    };
    let kind = repr.message_type;
    told_by(kind, given(repr, server, first_router(view.options())))
}

// Whether a packet is of this exchange and for this client.
fn is_for(repr: &Repr<'_>, transaction_id: u32, client: EthernetAddress) -> bool
    ensures { IsTrue result ↔ ((repr.now.transaction_id ≡ transaction_id)
        × (ethernet_of repr.now.client_hardware_address ≡ ethernet_of client)) }
{
    repr.transaction_id == transaction_id && repr.client_hardware_address == client
}

// What a message of this type says, where it would give this lease.
fn told_by(kind: MessageType, lease: Lease) -> Option<Answer>
    ensures sound { IfSome result (λ told. Tells kind (lease_value lease) (answer_of told)) }
    ensures complete { (told : AnswerValue) → Tells kind (lease_value lease) told
        → IsSomeAnd result (λ read. answer_of read ≡ told) }
{
    if kind == MessageType::Nak {
        return Some(Answer::Nak(lease.server));
    }
    if lease.address == Ipv4Address::UNSPECIFIED {
        return None;
    }
    if kind == MessageType::Offer {
        return Some(Answer::Offer(lease));
    }
    if kind == MessageType::Ack {
        return Some(Answer::Ack(lease));
    }
    None
}

// The lease of a packet from this server, with this router.
fn given(repr: Repr<'_>, server: Ipv4Address, router: Option<Ipv4Address>) -> Lease
    ensures { lease_value result ≡ lease_of (packet_value repr.entry) server router }
{
    Lease {
        address: repr.your_ip,
        server,
        subnet_mask: repr.subnet_mask,
        router,
        dns_servers: repr.dns_servers,
        lease_duration: repr.lease_duration,
        renew_duration: repr.renew_duration,
        rebind_duration: repr.rebind_duration,
    }
}

// The first address of the last option that has routers: where there are several such options, the value of the packet
// has none.
fn first_router(options: OptionsIter<'_>) -> Option<Ipv4Address>
    ensures { option_map octets_of result ≡ last_of (said 3 first_in) options.entry }
{
    let mut router = None;
    for option in options {
        router = router_in(option, router);
    }
    router
}

// The first address of an option that has routers, or else this one.
fn router_in(option: DhcpOption<'_>, router: Option<Ipv4Address>) -> Option<Ipv4Address>
    ensures { option_map octets_of result
        ≡ option_or (said 3 first_in (value_of_option option.entry)) (option_map octets_of router) }
{
    if option.kind != OPT_ROUTER {
        return router;
    }
    first_address(option.data).or(router)
}

// The first address of a list of them.
fn first_address(octets: &[u8]) -> Option<Ipv4Address>
    ensures { option_map octets_of result ≡ first_in octets.now }
{
    let Some((first, _)) = octets.split_first_chunk::<4>() else {
        return None;
    };
    Some(Ipv4Address::from_octets(*first))
}
