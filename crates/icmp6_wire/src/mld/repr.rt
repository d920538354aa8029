//! Messages as values (RFC 3810 section 5).

ghost use Rattle.std.specs.Prelude.{◌≡◌, ◌≤◌, ◌<◌, ◌+◌, ◌*◌, ◌^◌, length, [], ◌∷◌, IfOk, IfErr, IsOkAnd};
ghost use Rattle.wirebase.specs.Bytes.{byte_of, over};
ghost use Rattle.wirebase.specs.ByteWriter.{free, Puts};
ghost use Rattle.wirebase.specs.Checks.{Passes};
ghost use Rattle.wirebase.specs.Format.{Rewrites, SameText};
ghost use Rattle.wirebase.specs.Icmp.{type_field};
ghost use Rattle.wirebase.specs.Ipv6Address.{IsMulticast};
ghost use Rattle.icmp6_wire.specs.Icmpv6Packet.{inner, view_octets};
ghost use Rattle.icmp6_wire.specs.Mld.{MldValue, values_of, value_of, query_fields, report_fields, record_texts};
ghost use Rattle.icmp6_wire.specs.Mld.{message_fields, text};
ghost use Rattle.icmp6_wire.specs.Mld.{text_len, told_len, AreGroups, CanEmit, checks, IsMessage, format, Emits};
ghost use Rattle.icmp6_wire.specs.MldIterators.{AreGiven};
ghost use Rattle.icmp6_wire.specs.MldRecord.{value_of as record_value, text as record_text};
ghost use Rattle.icmp6_wire.specs.MldRefusal.{Refuses};

use super::field;
use super::record::AddressRecordRepr;
use super::refusal::Refusal;
use crate::icmpv6;
use crate::icmpv6::{Message, Packet};
use crate::writing::put_address;
use wirebase::{ByteWriter, Error, Ipv6Address, OctetsMut, Result, are_bytes, icmp};

/// A message (RFC 3810 section 5).
///
/// ```
/// use control_wire::icmpv6::{Packet, Repr as Icmpv6Repr};
/// use control_wire::mld::{AddressRecordRepr, RecordType, Repr};
/// use control_wire::{ChecksumCapabilities, Ipv6Address};
///
/// // A host that joins a group reports it to all routers that speak the protocol, ff02::16.
/// let src_addr = Ipv6Address::new(0xfe80, 0, 0, 0, 0, 0, 0, 1);
/// let dst_addr = Ipv6Address::new(0xff02, 0, 0, 0, 0, 0, 0, 0x16);
/// let join = [AddressRecordRepr {
///     record_type: RecordType::ChangeToExclude,
///     aux_data_len: 0,
///     num_srcs: 0,
///     mcast_addr: Ipv6Address::new(0xff02, 0, 0, 0, 0, 0, 0, 0xfb),
///     payload: &[],
/// }];
/// let report = Icmpv6Repr::Mld(Repr::ReportRecordReprs(&join));
/// let mut octets = [0; 64];
/// let octets = &mut octets[..report.packet_len()];
/// report.emit_into(&src_addr, &dst_addr, octets, &ChecksumCapabilities::default());
/// assert_eq!(octets.len(), 28);
/// ```
#[derive(Debug, PartialEq, Eq, Clone, Copy)]
pub enum Repr<'a> {
    /// A router asks which groups have listeners, or whether this one has.
    Query {
        /// The code of the maximum response time, which `icmpv6::Packet::max_resp_time` gives.
        max_resp_code: u16,
        /// The group, or `::` for all.
        mcast_addr: Ipv6Address,
        /// The flag S: whether routers that hear the query are to leave their timers as they are.
        s_flag: bool,
        /// The querier's robustness variable, below 8.
        qrv: u8,
        /// The code of the querier's interval.
        qqic: u8,
        /// The number of sources.
        num_srcs: u16,
        /// The sources, which [`Sources::new`](super::Sources::new) gives in turn, and what follows them.
        data: &'a [u8],
    },
    /// A host reports what it listens to.
    Report {
        /// The number of records.
        nr_mcast_addr_rcrds: u16,
        /// The records, which [`Records`](super::Records) gives in turn, and what follows them.
        data: &'a [u8],
    },
    /// A report to be written from its records, of which only the fields are written. So [`Records`](super::Records)
    /// gives back those that count neither sources nor auxiliary data, with an empty payload; for a record that counts
    /// some, it takes the next record as these, or finds the record cut. A report of records with sources is written as
    /// `Report`, whose data holds them.
    ReportRecordReprs(&'a [AddressRecordRepr<'a>]),
}

impl<'a> Repr<'a> {
    /// The message in the octets. Refused where they don't begin with the header of their type, and where that is
    /// neither a query nor a report. The counts are not compared with the data.
    pub fn parse(packet: &Packet<&'a [u8]>) -> Result<Repr<'a>>
        ensures sound { IfOk result (λ repr. IsMessage (view_octets packet.now) (value_of repr)) }
        ensures complete { (value : MldValue) → IsMessage (view_octets packet.now) value
            → IsOkAnd result (λ repr. value_of repr ≡ value) }
        ensures rewrites { length (view_octets packet.now) ≤ 65515
            → IfOk result (λ repr. Rewrites format (value_of repr)) }
    {
        are_bytes(packet.buffer);
        match Repr::read(packet) {
            Ok(repr) => Ok(repr),
            Err(_) => Err(Error),
        }
    }

    // The message in the octets, or the first check that fails.
    #[inline(always)]
    pub(super) fn read(packet: &Packet<&'a [u8]>) -> std::result::Result<Repr<'a>, Refusal>
        ensures sound { IfOk result (λ repr. IsMessage (view_octets packet.now) (value_of repr)) }
        ensures told { IfErr result (Refuses (view_octets packet.now)) }
    {
        let octets = packet.buffer;
        if octets.len() < icmpv6::field::HEADER_END {
            return Err(Refusal::Short);
        }
        let kind = packet.msg_type();
        if !kind.is_mld() {
            return Err(Refusal::UnknownType(octets[icmpv6::field::TYPE.start]));
        }
        if octets.len() < packet.header_len() {
            return Err(Refusal::Length);
        }
        match kind {
            Message::MldQuery => Ok(read_query(packet)),
            _ => Ok(read_report(packet)),
        }
    }

    /// The bytes that the message takes; of a list of records the 8 bytes before them. Requires that their number fits
    /// a `usize`.
    pub const fn buffer_len(&self) -> usize
        requires { told_len (value_of self.now) < 2 ^ 64 }
        ensures { result ≡ told_len (value_of self.now) }
    {
        match self {
            Repr::ReportRecordReprs(_) => field::NR_MCAST_RCRDS.end,
            _ => self.packet_len(),
        }
    }

    /// The bytes of the packet of the message, with a list of records. Requires that their number fits a `usize`.
    #[tactic(auto, using(crate::proofs::MldTexts::counts))]
    pub const fn packet_len(&self) -> usize
        requires { text_len (value_of self.now) < 2 ^ 64 }
        ensures value { result ≡ text_len (value_of self.now) }
        ensures exact { result ≡ length (text (value_of self.now)) }
    {
        match self {
            Repr::Query { data, .. } => field::QUERY_NUM_SRCS.end + data.len(),
            Repr::Report { data, .. } => field::NR_MCAST_RCRDS.end + data.len(),
            Repr::ReportRecordReprs(records) => {
                field::NR_MCAST_RCRDS.end + field::RECORD_MCAST_ADDR.end * records.len()
            }
        }
    }

    /// Writes the message over the front of the octets, with the checksum zero; the other octets are unchanged.
    /// Requires exactly `packet_len()` bytes, of a list of records at least as many; a robustness variable below 8; and
    /// at most 65,535 records, each of a group. The payloads of records are not written.
    pub fn emit<T: OctetsMut>(&self, packet: &mut Packet<T>)
        requires { CanEmit (value_of self.now) (T.bytes (inner packet.old)) }
        ensures place { inner packet.new ≡ T.put (inner packet.old) (T.bytes (inner packet.new)) }
        ensures emits { Emits (value_of self.now) (T.bytes (inner packet.old))
            (T.bytes (inner packet.new)) }
        ensures records { AreGiven (value_of self.now) (T.bytes (inner packet.new)) }
    {
        self.emit_into(packet.buffer.octets_mut());
    }

    /// Like `emit`, but writes into a slice. Give exactly `packet_len()` bytes.
    pub fn emit_into(&self, octets: &mut [u8])
        requires { CanEmit (value_of self.now) octets.old }
        ensures emits { Emits (value_of self.now) octets.old octets.new }
        ensures records { AreGiven (value_of self.now) octets.new }
    {
        self.write(octets);
    }

    /// Does nothing; its contract states, of two messages that a packet can hold, that equal texts mean equal normal
    /// forms, and conversely.
    #[tactic(auto, using(crate::proofs::MldFormat::mld_same_text))]
    pub fn same_text(a: &Self, b: &Self)
        ensures { SameText format (value_of a.now) (value_of b.now) }
    {}

    // Writes the message over the front of the octets.
    #[tactic(auto, using(wirebase::proofs::Chains::chain))]
    fn write(&self, octets: &mut [u8])
        requires { CanEmit (value_of self.now) octets.old }
        ensures { octets.new ≡ over octets.old (text (value_of self.now)) }
    {
        let mut w = ByteWriter::new(octets);
        self.put(&mut w);
    }

    // Writes the message with this writer.
    fn put(&self, w: &mut ByteWriter<'_>)
        requires { CanEmit (value_of self.now) (free w.old) }
        ensures { Puts w.old w.new (message_fields (value_of self.now)) }
    {
        match *self {
            Repr::Query {
                max_resp_code,
                mcast_addr,
                s_flag,
                qrv,
                qqic,
                num_srcs,
                data,
            } => put_query(
                w,
                max_resp_code,
                mcast_addr,
                s_flag,
                qrv,
                qqic,
                num_srcs,
                data,
            ),
            Repr::Report {
                nr_mcast_addr_rcrds,
                data,
            } => put_report(w, nr_mcast_addr_rcrds, data),
            Repr::ReportRecordReprs(records) => put_list(w, records),
        }
    }
}

// The query in octets of that type.
#[inline(always)]
pub(crate) fn read_query<'a>(packet: &Packet<&'a [u8]>) -> Repr<'a>
    requires passes { Passes (checks (view_octets packet.now)) }
    requires kind { byte_of type_field (view_octets packet.now) ≡ 0x82 }
    ensures { IsMessage (view_octets packet.now) (value_of result) }
{
    Repr::Query {
        max_resp_code: packet.max_resp_code(),
        mcast_addr: packet.mcast_addr(),
        s_flag: packet.s_flag(),
        qrv: packet.qrv(),
        qqic: packet.qqic(),
        num_srcs: packet.num_srcs(),
        data: packet.behind(Message::MldQuery),
    }
}

// The report in octets of that type.
#[inline(always)]
pub(crate) fn read_report<'a>(packet: &Packet<&'a [u8]>) -> Repr<'a>
    requires passes { Passes (checks (view_octets packet.now)) }
    requires kind { byte_of type_field (view_octets packet.now) ≡ 0x8f }
    ensures { IsMessage (view_octets packet.now) (value_of result) }
{
    Repr::Report {
        nr_mcast_addr_rcrds: packet.nr_mcast_addr_rcrds(),
        data: packet.behind(Message::MldReport),
    }
}

// Writes a query.
fn put_query(
    w: &mut ByteWriter<'_>,
    max_resp_code: u16,
    mcast_addr: Ipv6Address,
    s_flag: bool,
    qrv: u8,
    qqic: u8,
    num_srcs: u16,
    data: &[u8],
)
    requires room { 28 + length «data».now ≤ length (free w.old) }
    requires small { qrv < 8 }
    ensures { Puts w.old w.new
        (query_fields max_resp_code mcast_addr s_flag qrv qqic num_srcs «data».now) }
{
    let [a, b] = max_resp_code.to_be_bytes();
    icmp::put_header(w, Message::MldQuery.into(), 0, [a, b, 0, 0]);
    put_address(w, &mcast_addr);
    let flag = if s_flag { 8 } else { 0 };
    let [a, b] = num_srcs.to_be_bytes();
    w.put_bytes(&[flag + qrv, qqic, a, b]);
    w.put_bytes(data);
}

// Writes a report of `count` records, which the data holds.
fn put_report(w: &mut ByteWriter<'_>, count: u16, data: &[u8])
    requires room { 8 + length «data».now ≤ length (free w.old) }
    ensures { Puts w.old w.new (report_fields count («data».now ∷ [])) }
{
    put_report_header(w, count);
    w.put_bytes(data);
}

// Writes a report of these records.
#[tactic(auto, using(crate::proofs::MldTexts::counts))]
fn put_list(w: &mut ByteWriter<'_>, records: &[AddressRecordRepr<'_>])
    requires room { 8 + 20 * length records.now ≤ length (free w.old) }
    requires few { length records.now ≤ 65535 }
    requires groups { AreGroups (values_of records.now) }
    ensures { Puts w.old w.new
        (report_fields (length records.now) (record_texts (values_of records.now))) }
{
    put_report_header(w, records.len() as u16);
    put_records(w, records);
}

// Writes the header of a report of `count` records.
fn put_report_header(w: &mut ByteWriter<'_>, count: u16)
    requires room { 8 ≤ length (free w.old) }
    ensures puts { Puts w.old w.new (report_fields count []) }
    ensures room { length (free w.old) ≡ 8 + length (free w.new) }
{
    let [a, b] = count.to_be_bytes();
    icmp::put_header(w, Message::MldReport.into(), 0, [0, 0, a, b]);
}

// Writes each record.
#[tactic(auto, using(std::proofs::lemmas::List::drop_all))]
fn put_records(w: &mut ByteWriter<'_>, records: &[AddressRecordRepr<'_>])
    requires room { 20 * length records.now ≤ length (free w.old) }
    requires groups { AreGroups (values_of records.now) }
    ensures { Puts w.old w.new (record_texts (values_of records.now)) }
{
    for record in records {
        put_record(w, record);
    }
}

// Writes a record.
#[tactic(auto, using(crate::proofs::MldRecords::record_texts))]
fn put_record(w: &mut ByteWriter<'_>, repr: &AddressRecordRepr<'_>)
    requires room { 20 ≤ length (free w.old) }
    requires group { IsMulticast repr.now.mcast_addr }
    ensures puts { Puts w.old w.new (record_text (record_value repr.now) ∷ []) }
    ensures room { length (free w.old) ≡ 20 + length (free w.new) }
{
    repr.write(w.part(repr.buffer_len()));
}
