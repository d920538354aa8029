//! The packet that an error quotes, from its header on, as much of it as the error may carry (RFC 4443 section 2.4).

ghost use Rattle.std.specs.Prelude.{◌≡◌, ◌≤◌, min, length, drop};
ghost use Rattle.wirebase.specs.Bytes.{over};
ghost use Rattle.wirebase.specs.ByteWriter.{free, Puts, fields};
ghost use Rattle.wirebase.specs.Ipv6.{IsHeader};
ghost use Rattle.icmp6_wire.specs.Icmpv6.{quoted_data, error_fields, error_len};
ghost use Rattle.icmp6_wire.specs.Icmpv6Tables.{message_number};

use super::tables::Message;
use super::{MAX_QUOTED_DATA, field};
use opt_wire::writing::put_header;
use wirebase::{ByteWriter, IPV6_HEADER_LEN, Ipv6Packet, Ipv6Repr, icmp};

// The bytes of an error that quotes this header and as much of this data as it may.
pub(super) fn error_len(quoted: &Ipv6Repr, data: &[u8]) -> usize
    ensures { result ≡ error_len «data».now }
{
    field::HEADER_END + quoted.buffer_len() + quotable(data).len()
}

// Writes an error of this type over the front of the octets, with as much of its data as it may quote.
#[tactic(auto, using(wirebase::proofs::Chains::chain))]
pub(super) fn write_error(
    octets: &mut [u8],
    kind: Message,
    code: u8,
    word: u32,
    quoted: &Ipv6Repr,
    data: &[u8],
)
    requires room { error_len «data».now ≤ length octets.old }
    requires count { quoted.now.payload_len ≤ 65535 }
    ensures { octets.new ≡ over octets.old
        (fields (error_fields (message_number kind) code word quoted.now «data».now)) }
{
    put_error(&mut ByteWriter::new(octets), kind, code, word, quoted, data);
}

// Writes an error of this type with a writer.
#[tactic(auto, using(wirebase::proofs::Ipv6Header::header_texts), unfolding(wirebase::specs::ByteWriter::be32))]
fn put_error(
    w: &mut ByteWriter<'_>,
    kind: Message,
    code: u8,
    word: u32,
    quoted: &Ipv6Repr,
    data: &[u8],
)
    requires room { error_len «data».now ≤ length (free w.old) }
    requires count { quoted.now.payload_len ≤ 65535 }
    ensures { Puts w.old w.new
        (error_fields (message_number kind) code word quoted.now «data».now) }
{
    icmp::put_header(w, kind.into(), code, word.to_be_bytes());
    put_header(w, quoted);
    w.put_bytes(quotable(data));
}

// The part of the data that an error may quote.
#[tactic(auto, using(crate::proofs::Icmpv6Texts::cuts))]
fn quotable(data: &[u8]) -> &[u8]
    ensures value { result.now ≡ quoted_data «data».now }
    ensures len { length result.now ≡ min (length «data».now) 1192 }
{
    &data[..data.len().min(MAX_QUOTED_DATA)]
}

// The header that an error quotes, and all that follows it (RFC 4443 section 3).
pub(super) fn read_quote(octets: &[u8]) -> (Ipv6Repr, &[u8])
    requires { 40 ≤ length octets.now }
    ensures header { IsHeader octets.now result.0 }
    ensures behind { result.1.now ≡ drop 40 octets.now }
{
    let packet = Ipv6Packet::new_unchecked(octets);
    let header = Ipv6Repr {
        src_addr: packet.src_addr(),
        dst_addr: packet.dst_addr(),
        next_header: packet.next_header(),
        payload_len: packet.payload_len() as usize,
        hop_limit: packet.hop_limit(),
    };
    (header, &octets[IPV6_HEADER_LEN..])
}
