//! A server of DHCP at the time when a network starts: it reads requests, and answers them; clients read the answers.

use crate::digest::Digest;
use crate::digest::lease::{add_lease, add_option};
use crate::random::{Pool, Random};
use arrayvec::ArrayVec;
use control_wire::dhcpv4::{DhcpOption, MessageType, Packet, Repr};
use control_wire::{EthernetAddress, Ipv4Address};
use std::alloc::Global;
use std::io;

// The bytes that a message has at least and at most (RFC 1542 section 2.1, RFC 2131 section 2).
const LEAST_LEN: u32 = 300;

const MOST_LEN: usize = 576;

// Kinds of option that a server passes on to others: of a host, of its vendor, of its users, of its boot, and more.
const OTHER_KINDS: [u8; 12] = [12, 60, 77, 43, 15, 42, 119, 121, 125, 81, 93, 94];

// What a client requests of a server (RFC 2132 section 9.8).
const REQUESTED: [u8; 12] = [1, 3, 6, 15, 26, 28, 42, 51, 54, 58, 59, 119];

/// Leases addresses, in each round to another client, and returns a digest of what was read.
pub fn digest(alloc: Global, seed: u64, rounds: u32) -> io::Result<u64> {
    let mut random = Random::new(seed);
    let pool = Pool::new(alloc, &mut random)?;
    let mut digest = Digest::new();
    let mut packet = [0; MOST_LEN];
    for _ in 0..rounds {
        let number = random.next();
        let data = random.next();
        let len = (LEAST_LEN + random.below(277)) as usize;
        let options = others(&pool, data);
        let few = &options[..(data % 13) as usize];
        let message = request(MessageType::Discover, number, few);
        exchange(&message, &mut packet[..len], &mut digest);
        let message = answer(MessageType::Offer, number, &few[..few.len() / 2]);
        exchange(&message, &mut packet[..len], &mut digest);
        let message = request(MessageType::Request, number, few);
        exchange(&message, &mut packet[..len], &mut digest);
        let message = answer(MessageType::Ack, number, &few[..few.len() / 2]);
        exchange(&message, &mut packet[..len], &mut digest);
    }
    Ok(digest.value())
}

// Options of other kinds, with data of the pool.
fn others(pool: &Pool, number: u64) -> [DhcpOption<'_>; 12] {
    let mut options = [DhcpOption { kind: 0, data: &[] }; 12];
    for place in 0..12 {
        let turned = number.rotate_left(5 * place as u32);
        options[place] = DhcpOption {
            kind: OTHER_KINDS[(place + (number % 12) as usize) % 12],
            data: pool.part(turned, 1 + (turned % 23) as usize),
        };
    }
    options
}

// The lower 8 bits of a number.
fn lowest(number: u64) -> u8 {
    (number % 256) as u8
}

// An address of a private network that the number determines.
fn address(number: u64) -> Ipv4Address {
    Ipv4Address::new(
        10,
        lowest(number >> 16),
        lowest(number >> 8),
        lowest(number),
    )
}

// An address in one of four messages, and else none.
fn rare_address(number: u64) -> Ipv4Address {
    if number % 4 == 0 {
        address(number >> 2)
    } else {
        Ipv4Address::UNSPECIFIED
    }
}

// The address of a client on its network.
fn client(number: u64) -> EthernetAddress {
    EthernetAddress([
        0x52,
        0x54,
        0,
        lowest(number),
        lowest(number >> 8),
        lowest(number >> 16),
    ])
}

// A message with these options and no others.
fn blank<'a>(message_type: MessageType, number: u64, options: &'a [DhcpOption<'a>]) -> Repr<'a> {
    Repr {
        message_type,
        transaction_id: (number >> 32) as u32,
        secs: (number % 64) as u16,
        client_hardware_address: client(number),
        client_ip: rare_address(number >> 3),
        your_ip: Ipv4Address::UNSPECIFIED,
        server_ip: rare_address(number >> 11),
        router: None,
        subnet_mask: None,
        relay_agent_ip: rare_address(number >> 19),
        broadcast: number % 2 == 0,
        requested_ip: None,
        client_identifier: None,
        server_identifier: None,
        parameter_request_list: None,
        dns_servers: None,
        max_size: None,
        lease_duration: None,
        renew_duration: None,
        rebind_duration: None,
        additional_options: options,
    }
}

// A message of a client.
fn request<'a>(message_type: MessageType, number: u64, options: &'a [DhcpOption<'a>]) -> Repr<'a> {
    let mut message = blank(message_type, number, options);
    message.client_identifier = Some(client(number));
    message.parameter_request_list = Some(&REQUESTED);
    message.max_size = Some(1_500);
    if message_type == MessageType::Request {
        message.requested_ip = Some(address(number));
        message.server_identifier = Some(address(1));
    }
    message
}

// The answer of a server.
fn answer<'a>(message_type: MessageType, number: u64, options: &'a [DhcpOption<'a>]) -> Repr<'a> {
    let mut message = blank(message_type, number, options);
    message.your_ip = address(number);
    message.server_identifier = Some(address(1));
    message.router = Some(address(1));
    message.subnet_mask = Some(Ipv4Address::new(255, 0, 0, 0));
    let mut servers = ArrayVec::new();
    for place in 0..number % 4 {
        let _ = servers.try_push(address(place + 2));
    }
    message.dns_servers = Some(servers);
    message.lease_duration = Some((number % 86_400) as u32);
    message.renew_duration = Some((number % 43_200) as u32);
    message.rebind_duration = Some((number % 75_600) as u32);
    message
}

// Writes a message, and reads it and each of its options.
fn exchange(message: &Repr<'_>, octets: &mut [u8], digest: &mut Digest) {
    if octets.len() < 240 || message.emit_into(octets).is_err() {
        digest.add(1);
        return;
    }
    let packet = Packet::new_unchecked(&*octets);
    match Repr::parse(&packet) {
        Ok(message) => add_lease(&message, digest),
        Err(_) => digest.add(2),
    }
    for option in packet.options() {
        add_option(&option, digest);
    }
}
