//! The fragment header of IPv6 (RFC 8200 section 4.5).

ghost use Rattle.std.specs.Prelude.{◌≡◌, ◌<◌, IfOk, IfErr, IsOkAnd};
ghost use Rattle.wirebase.specs.Bytes.{over};
ghost use Rattle.wirebase.specs.Format.{Rewrites};
ghost use Rattle.header_wire.specs.Ipv6Fragment.{Packet, packet_of, text_len, text, IsPacket, Refuses, CanEmit};
ghost use Rattle.header_wire.specs.Ipv6Fragment.{format, Emits};

mod display;

use wirebase::{ByteWriter, IpProtocol, Octets, are_bytes};

mod field {
    use wirebase::Field;

    pub const NEXT_HEADER: usize = 0;

    pub const OFFSET: Field = 2..4;

    pub const IDENT: Field = 4..8;
}

/// The bytes of a header.
pub const LEN: usize = field::IDENT.end;

/// Why octets are refused as a fragment.
#[derive(Debug, PartialEq, Eq, Clone, Copy)]
pub enum Refusal {
    /// Fewer than 8 bytes.
    Short,
}

/// The header of a fragment of a packet of IPv6, which the header before it names by [`IpProtocol::Ipv6Frag`].
///
/// ```
/// use control_wire::IpProtocol;
/// use header_wire::ipv6_fragment::Header;
///
/// let header = Header {
///     next_header: IpProtocol::Icmpv6,
///     frag_offset: 154,
///     more_frags: true,
///     ident: 0x01020304,
/// };
/// let mut octets = [0; 8];
/// header.emit_into(&mut octets);
/// assert_eq!(octets, [58, 0, 0x04, 0xd1, 1, 2, 3, 4]);
/// assert_eq!(Header::parse(&octets), Ok((header, &[][..])));
/// ```
#[derive(Debug, PartialEq, Eq, Clone, Copy)]
pub struct Header {
    /// What the unfragmented packet has behind the header before this one.
    pub next_header: IpProtocol,
    /// Where the payload begins in the part of the packet that is fragmented, which follows the extension headers that
    /// each fragment repeats: in units of 8 octets, below 8192.
    pub frag_offset: u16,
    /// Other fragments follow this one.
    pub more_frags: bool,
    /// The identification, which the fragments of one packet share.
    pub ident: u32,
}

impl Header {
    /// The header that these octets begin with, and the payload: all that follows it, so they are to end where the
    /// packet does. Reserved bits are not looked at, nor whether a payload that others follow is whole units of 8
    /// octets, or ends past 65,535 octets; receivers discard such packets (RFC 8200 section 4.5), as `reassembly` does.
    pub fn parse(octets: &[u8]) -> Result<(Header, &[u8]), Refusal>
        ensures sound { IfOk result (λ both. IsPacket octets.now (packet_of both)) }
        ensures complete { (p : Packet) → IsPacket octets.now p → IsOkAnd result (λ both. packet_of both ≡ p) }
        ensures told { IfErr result (Refuses octets.now) }
        ensures rewrites { IfOk result (λ both. Rewrites format (packet_of both)) }
    {
        are_bytes(octets);
        read(octets)
    }

    /// The bytes that the header takes: 8.
    pub fn buffer_len(&self) -> usize
        ensures { result ≡ text_len }
    {
        LEN
    }

    /// Writes the header over the front of the octets; the other octets are unchanged. Reserved bits are zero. Requires
    /// at least 8 bytes, and a fragment offset below 8192.
    pub fn emit_into(&self, octets: &mut [u8])
        requires { CanEmit self.now octets.old }
        ensures { Emits self.now octets.old octets.new }
    {
        self.write(octets);
    }

    // Writes the fields.
    #[tactic(auto, using(wirebase::proofs::Chains::chain))]
    fn write(&self, octets: &mut [u8])
        requires { CanEmit self.now octets.old }
        ensures { octets.new ≡ over octets.old (text self.now) }
    {
        let mut w = ByteWriter::new(octets);
        w.put_u8(self.next_header.into());
        w.put_u8(0);
        w.put_u16(8 * self.frag_offset + self.more_frags as u16);
        w.put_u32(self.ident);
    }
}

// The header that these octets begin with, and the payload.
fn read(octets: &[u8]) -> Result<(Header, &[u8]), Refusal>
    ensures sound { IfOk result (λ both. IsPacket octets.now (packet_of both)) }
    ensures complete { (p : Packet) → IsPacket octets.now p → IsOkAnd result (λ both. packet_of both ≡ p) }
    ensures told { IfErr result (Refuses octets.now) }
{
    if octets.len() < LEN {
        return Err(Refusal::Short);
    }
    let offset = octets.u16_at(field::OFFSET);
    let header = Header {
        next_header: octets[field::NEXT_HEADER].into(),
        frag_offset: offset / 8,
        more_frags: offset % 2 == 1,
        ident: octets.u32_at(field::IDENT),
    };
    Ok((header, &octets[LEN..]))
}
