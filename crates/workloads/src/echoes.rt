//! A host answers echo requests of both families, sends errors that quote the datagram that they are about, and reads
//! such errors; and the checksums of other protocols.

ghost use Rattle.std.specs.Prelude.{◌≤◌, length};

use crate::digest::Digest;
use crate::digest::icmp::{
    add_icmpv4, add_icmpv4_error, add_icmpv6, add_icmpv6_error, add_ipv4_quote, add_ipv6_quote,
};
use crate::random::{Pool, Random};
use byteorder::{BigEndian, ByteOrder};
use control_wire::{ChecksumCapabilities, Ipv6Address, checksum, icmpv4, icmpv6};
use quote_wire::quote::{Ipv4Quote, Ipv6Quote};
use quote_wire::{icmpv4_error, icmpv6_error};
use std::alloc::Global;
use std::io;

// The bytes of the longest packet of a link, and of IPv4 over ICMP.
const PACKET_LEN: usize = 1_500;

const LONG_PACKET_LEN: usize = 65_515;

// The bytes of data that an echo has in common, and in one round of many.
const COMMON_LEN: u32 = 1_344;

const LONG_LEN: usize = 65_507;

// How often an echo has as much data as IPv4 can carry.
const LONG_EVERY: u32 = 1_024;

// The lengths of what has a checksum: a header, a header with options, a segment, and packets of links.
const SUMMED_LENGTHS: [usize; 6] = [20, 40, 64, 576, 1_500, 9_000];

// The kinds of errors that are sent; `icmpv4` reads all but the last one.
const KINDS: [icmpv4_error::Kind; 4] = [
    icmpv4_error::Kind::DstUnreachable,
    icmpv4_error::Kind::TimeExceeded,
    icmpv4_error::Kind::DstUnreachable,
    icmpv4_error::Kind::ParamProblem,
];

const KINDS_V6: [icmpv6_error::Kind; 4] = [
    icmpv6_error::Kind::DstUnreachable,
    icmpv6_error::Kind::PktTooBig,
    icmpv6_error::Kind::TimeExceeded,
    icmpv6_error::Kind::ParamProblem,
];

// The buffers of a host.
#[derive(Drop)]
struct Buffers {
    // A datagram of IPv4 and an IPv6 packet, about which errors are sent.
    datagram: [u8; PACKET_LEN],
    packet: [u8; PACKET_LEN],
    // What a peer sends, and what the host answers.
    request: [u8; PACKET_LEN],
    reply: [u8; PACKET_LEN],
}

/// Answers echoes and sends errors, each round others, and returns a digest of what was read and written.
pub fn digest(alloc: Global, seed: u64, rounds: u32) -> io::Result<u64> {
    let mut random = Random::new(seed);
    let pool = Pool::new(alloc, &mut random)?;
    let mut digest = Digest::new();
    let mut buffers = Buffers {
        datagram: [0; PACKET_LEN],
        packet: [0; PACKET_LEN],
        request: [0; PACKET_LEN],
        reply: [0; PACKET_LEN],
    };
    let mut long_request = vec![in alloc; 0; LONG_PACKET_LEN]?;
    let mut long_reply = vec![in alloc; 0; LONG_PACKET_LEN]?;
    for round in 0..rounds {
        answer(&mut random, &pool, &mut buffers, &mut digest);
        send_errors(&mut random, &mut buffers, &mut digest);
        if round % LONG_EVERY == 0 {
            let number = random.next();
            let payload = pool.part(number, LONG_LEN);
            let request = long_request.as_mut_slice();
            echo(
                number,
                payload,
                request,
                long_reply.as_mut_slice(),
                &mut digest,
            );
        }
        let number = random.next();
        let len = SUMMED_LENGTHS[(number % 6) as usize];
        digest.add(checksum::data(pool.part(number >> 8, len)) as u64);
    }
    Ok(digest.value())
}

// Answers an echo request of each family.
fn answer(random: &mut Random, pool: &Pool, buffers: &mut Buffers, digest: &mut Digest) {
    let len = 56 + random.below(COMMON_LEN) as usize;
    let number = random.next();
    let payload = pool.part(number >> 32, len);
    echo(
        number,
        payload,
        &mut buffers.request,
        &mut buffers.reply,
        digest,
    );
    let len = 56 + random.below(COMMON_LEN) as usize;
    let number = random.next();
    let payload = pool.part(number >> 32, len);
    echo_v6(
        number,
        payload,
        &mut buffers.request,
        &mut buffers.reply,
        digest,
    );
}

// The lower 16 bits of a number.
fn low(number: u64) -> u16 {
    (number % 65_536) as u16
}

// An address of a host that the number determines.
fn address(number: u64) -> Ipv6Address {
    let interface = low(number >> 16);
    Ipv6Address::new(0x2001, 0xdb8, 0, low(number), 0, 0, 0, interface)
}

// Sends an echo request over IPv4, answers it, and reads the answer.
fn echo(number: u64, payload: &[u8], request: &mut [u8], reply: &mut [u8], digest: &mut Digest)
    requires { length payload.now ≤ 65507 }
{
    let caps = ChecksumCapabilities::default();
    let message = icmpv4::Repr::EchoRequest {
        ident: low(number),
        seq_no: low(number >> 16),
        data: payload,
    };
    let len = message.buffer_len();
    if len > request.len() || len > reply.len() {
        return;
    }
    message.emit_into(&mut request[..len], &caps);
    let packet = icmpv4::Packet::new_unchecked(&request[..len]);
    let Ok(message) = icmpv4::Repr::parse(&packet, &caps) else {
        return;
    };
    add_icmpv4(&message, digest);
    let icmpv4::Repr::EchoRequest {
        ident,
        seq_no,
        data,
    } = message
    else {
        return;
    };
    let answer = icmpv4::Repr::EchoReply {
        ident,
        seq_no,
        data,
    };
    if answer.buffer_len() != len {
        return;
    }
    answer.emit_into(&mut reply[..len], &caps);
    let packet = icmpv4::Packet::new_unchecked(&reply[..len]);
    if let Ok(message) = icmpv4::Repr::parse(&packet, &caps) {
        add_icmpv4(&message, digest);
        digest.add(packet.checksum() as u64);
    }
}

// Sends an echo request over IPv6, answers it, and reads the answer.
fn echo_v6(number: u64, payload: &[u8], request: &mut [u8], reply: &mut [u8], digest: &mut Digest)
    requires { length payload.now ≤ 65507 }
{
    let caps = ChecksumCapabilities::default();
    let peer = address(number);
    let own = address(number >> 20);
    let message = icmpv6::Repr::EchoRequest {
        ident: low(number),
        seq_no: low(number >> 16),
        data: payload,
    };
    let len = message.buffer_len();
    if len > request.len() || len > reply.len() || len < 8 {
        return;
    }
    message.emit_into(&peer, &own, &mut request[..len], &caps);
    let packet = icmpv6::Packet::new_unchecked(&request[..len]);
    let Ok(message) = icmpv6::Repr::parse(&peer, &own, &packet, &caps) else {
        return;
    };
    add_icmpv6(&message, digest);
    let icmpv6::Repr::EchoRequest {
        ident,
        seq_no,
        data,
    } = message
    else {
        return;
    };
    let answer = icmpv6::Repr::EchoReply {
        ident,
        seq_no,
        data,
    };
    if answer.buffer_len() != len {
        return;
    }
    answer.emit_into(&own, &peer, &mut reply[..len], &caps);
    let packet = icmpv6::Packet::new_unchecked(&reply[..len]);
    if let Ok(message) = icmpv6::Repr::parse(&own, &peer, &packet, &caps) {
        add_icmpv6(&message, digest);
        digest.add(packet.checksum() as u64);
    }
}

// Sends an error about a datagram of each family, and reads it.
fn send_errors(random: &mut Random, buffers: &mut Buffers, digest: &mut Digest) {
    let len = 28 + random.below(1_240) as usize;
    let number = random.next();
    write_datagram(number, &mut buffers.datagram[..len]);
    send_error(number, &buffers.datagram[..len], &mut buffers.reply, digest);
    let len = 48 + random.below(1_240) as usize;
    let number = random.next();
    write_packet(number, &mut buffers.packet[..len]);
    send_error_v6(number, &buffers.packet[..len], &mut buffers.reply, digest);
}

// The lower 8 bits of a number.
fn lowest(number: u64) -> u8 {
    (number % 256) as u8
}

// Writes the header of a datagram over just its octets.
fn write_datagram(number: u64, datagram: &mut [u8])
    requires least { 28 ≤ length datagram.old }
    requires most { length datagram.old ≤ 1500 }
{
    let len = datagram.len() as u16;
    datagram[0] = if number % 8 == 0 { 0x46 } else { 0x45 };
    datagram[1] = lowest(number >> 32);
    BigEndian::write_u16(&mut datagram[2..4], len);
    BigEndian::write_u16(&mut datagram[4..6], low(number >> 8));
    BigEndian::write_u16(&mut datagram[6..8], low(number >> 16));
    datagram[8] = lowest(number >> 40);
    datagram[9] = lowest(number >> 48);
    BigEndian::write_u64(&mut datagram[12..20], number);
    BigEndian::write_u64(&mut datagram[20..28], number.wrapping_mul(3));
}

// Writes the header of a packet over just its octets.
fn write_packet(number: u64, packet: &mut [u8])
    requires least { 48 ≤ length packet.old }
    requires most { length packet.old ≤ 1500 }
{
    let len = packet.len() as u16 - 40;
    BigEndian::write_u32(
        &mut packet[..4],
        0x6000_0000 + ((number >> 20) % 0x1000_0000) as u32,
    );
    BigEndian::write_u16(&mut packet[4..6], len);
    packet[6] = lowest(number >> 40);
    packet[7] = lowest(number >> 48);
    BigEndian::write_u64(&mut packet[8..16], 0x2001_0db8_0000_0000);
    BigEndian::write_u64(&mut packet[16..24], number);
    BigEndian::write_u64(&mut packet[24..32], 0x2001_0db8_0000_0001);
    BigEndian::write_u64(&mut packet[32..40], number.wrapping_mul(3));
    BigEndian::write_u64(&mut packet[40..48], number.wrapping_mul(5));
}

// Sends an error about a datagram, and reads it twice: with the quoted bytes and the fields in these, and with the
// quoted header alone.
fn send_error(number: u64, datagram: &[u8], reply: &mut [u8], digest: &mut Digest) {
    let caps = ChecksumCapabilities::default();
    let error = icmpv4_error::Repr {
        kind: KINDS[(number >> 4) as usize % 4],
        code: lowest(number) % 16,
        rest: (number >> 32) as u32,
        quoted: datagram,
    };
    let len = error.buffer_len();
    if len > reply.len() || len < 8 {
        return;
    }
    error.emit_into(&mut reply[..len], &caps);
    if let Ok(error) = icmpv4_error::Repr::parse(&reply[..len], &caps) {
        add_icmpv4_error(&error, digest);
        match Ipv4Quote::parse(error.quoted) {
            Ok(quote) => add_ipv4_quote(&quote, digest),
            Err(_) => digest.add(2),
        }
    }
    let packet = icmpv4::Packet::new_unchecked(&reply[..len]);
    match icmpv4::Repr::parse(&packet, &caps) {
        Ok(message) => {
            add_icmpv4(&message, digest);
            digest.add(packet.checksum() as u64);
        }
        Err(_) => digest.add(1),
    }
}

// An error about an IPv6 packet.
fn send_error_v6(number: u64, quoted: &[u8], reply: &mut [u8], digest: &mut Digest) {
    let caps = ChecksumCapabilities::default();
    let own = address(number);
    let peer = address(number >> 16);
    let kind = KINDS_V6[(number >> 4) as usize % 4];
    let code = if kind == icmpv6_error::Kind::PktTooBig {
        0
    } else {
        lowest(number) % 16
    };
    let error = icmpv6_error::Repr {
        kind,
        code,
        rest: (number >> 32) as u32,
        quoted,
    };
    let len = error.buffer_len();
    if len > reply.len() || len < 8 {
        return;
    }
    error.emit_into(&own, &peer, &mut reply[..len], &caps);
    if let Ok(error) = icmpv6_error::Repr::parse(&own, &peer, &reply[..len], &caps) {
        add_icmpv6_error(&error, digest);
        match Ipv6Quote::parse(error.quoted) {
            Ok(quote) => add_ipv6_quote(&quote, digest),
            Err(_) => digest.add(2),
        }
    }
    let packet = icmpv6::Packet::new_unchecked(&reply[..len]);
    match icmpv6::Repr::parse(&own, &peer, &packet, &caps) {
        Ok(message) => {
            add_icmpv6(&message, digest);
            digest.add(packet.checksum() as u64);
        }
        Err(_) => digest.add(1),
    }
}
