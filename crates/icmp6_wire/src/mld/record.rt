//! Records of reports (RFC 3810 section 5.2).

ghost use Rattle.std.specs.Prelude.{◌≡◌, ◌↔◌, ◌-◌, ◌<◌, [], ◌∷◌, length, IsTrue, IsOk, IsErr, IfOk, IsOkAnd};
ghost use Rattle.std.specs.Borrow.{sem, Lends, Array, u8 as byte};
ghost use Rattle.byteorder.specs.Endian.{big_bytes};
ghost use Rattle.wirebase.specs.Bytes.{splice, Reaches, byte_of, bytes_of, number_of, over};
ghost use Rattle.wirebase.specs.Format.{Rewrites, SameText};
ghost use Rattle.wirebase.specs.Ipv6Address.{octets_of, IsMulticast};
ghost use Rattle.wirebase.specs.View.{Sets, KeepsLen};
ghost use Rattle.icmp6_wire.specs.MldTables.{record_type_number, record_type_of};
ghost use Rattle.icmp6_wire.specs.MldRecord.{inner, with_inner, view_octets, record_type_field, aux_data_len_field};
ghost use Rattle.icmp6_wire.specs.MldRecord.{num_srcs_field, mcast_addr_field, payload_in, RecordValue, address_record};
ghost use Rattle.icmp6_wire.specs.MldRecord.{value_of, text, group_of, IsRecord, format, Emits};
ghost use Rattle.icmp6_wire.specs.contracts.mld.record.AddressRecord.{the_row};

use super::field;
use super::tables::RecordType;
use crate::writing::put_address;
use wirebase::{ByteWriter, Error, Ipv6Address, Octets, OctetsMut, Result, are_bytes};

/// A view of the octets of a record in a report (RFC 3810 section 5.2).
#[derive(Debug, Clone, Drop)]
pub struct AddressRecord<T: Octets> {
    buffer: T,
}

impl<T: Octets> AddressRecord<T> {
    /// Makes a view of `buffer`; its length is not checked.
    pub const fn new_unchecked(buffer: T) -> AddressRecord<T>
        ensures { inner result ≡ buffer }
    {
        AddressRecord { buffer }
    }

    /// Makes a view of `buffer`. Refused where it has fewer than 20 octets. On refusal the buffer is dropped: to keep a
    /// `&mut [u8]`, call `new_unchecked` and then `check_len`.
    pub fn new_checked(buffer: T) -> Result<AddressRecord<T>>
        ensures accepts { IsOk result ↔ Reaches mcast_addr_field (T.bytes buffer) }
        ensures buffer { IfOk result (λ view. inner view ≡ buffer) }
    {
        let record = AddressRecord::new_unchecked(buffer);
        record.check_len()?;
        Ok(record)
    }

    /// Accepts 20 octets or more. Then each accessor may be called.
    pub fn check_len(&self) -> Result<()>
        ensures accepts { IsOk result ↔ Reaches mcast_addr_field (T.bytes (inner self.now)) }
    {
        if self.buffer.octets().len() < field::RECORD_MCAST_ADDR.end {
            return Err(Error);
        }
        Ok(())
    }

    /// Returns the buffer of the view.
    pub fn into_inner(self) -> T
        ensures { result ≡ inner self }
    {
        self.buffer
    }

    /// The type. Requires at least 1 byte.
    pub fn record_type(&self) -> RecordType
        requires { Reaches record_type_field (T.bytes (inner self.now)) }
        ensures { result ≡ record_type_of (byte_of record_type_field (T.bytes (inner self.now))) }
    {
        RecordType::from(self.buffer.u8_at(field::RECORD_TYPE))
    }

    /// The words of 4 bytes that the auxiliary data has. Requires at least 2 bytes.
    pub fn aux_data_len(&self) -> u8
        requires { Reaches aux_data_len_field (T.bytes (inner self.now)) }
        ensures { result ≡ byte_of aux_data_len_field (T.bytes (inner self.now)) }
    {
        self.buffer.u8_at(field::AUX_DATA_LEN)
    }

    /// The number of sources. Requires at least 4 bytes.
    pub fn num_srcs(&self) -> u16
        requires { Reaches num_srcs_field (T.bytes (inner self.now)) }
        ensures { result ≡ number_of num_srcs_field (T.bytes (inner self.now)) }
    {
        self.buffer.u16_at(field::RECORD_NUM_SRCS)
    }

    /// The group. Requires at least 20 bytes.
    pub fn mcast_addr(&self) -> Ipv6Address
        requires { Reaches mcast_addr_field (T.bytes (inner self.now)) }
        ensures { octets_of result ≡ bytes_of mcast_addr_field (T.bytes (inner self.now)) }
    {
        Ipv6Address::from_octets(
            self.buffer
                .field(field::RECORD_MCAST_ADDR)
                .try_into()
                .unwrap(),
        )
    }
}

impl<'a> AddressRecord<&'a [u8]> {
    /// The octets after the fields, which are sources and auxiliary data, for as long as the octets live. Requires at
    /// least 20 bytes.
    pub fn payload(&self) -> &'a [u8]
        requires { Reaches mcast_addr_field (view_octets self.now) }
        ensures { result.now ≡ payload_in (view_octets self.now) }
    {
        &self.buffer[field::RECORD_MCAST_ADDR.end..]
    }
}

impl<T: OctetsMut> AddressRecord<T> {
    /// Writes the type. Requires at least 1 byte.
    pub fn set_record_type(&mut self, value: RecordType)
        requires { Reaches record_type_field (T.bytes (inner self.old)) }
        ensures writes { Sets inner T.bytes T.put self.old self.new record_type_field
            (record_type_number value ∷ []) }
        ensures len { KeepsLen inner T.bytes self.old self.new }
    {
        self.buffer.set_u8(field::RECORD_TYPE, value.into());
    }

    /// Writes the words of 4 bytes that the auxiliary data has. Requires at least 2 bytes.
    pub fn set_aux_data_len(&mut self, value: u8)
        requires { Reaches aux_data_len_field (T.bytes (inner self.old)) }
        ensures writes { Sets inner T.bytes T.put self.old self.new aux_data_len_field (value ∷ []) }
        ensures len { KeepsLen inner T.bytes self.old self.new }
    {
        self.buffer.set_u8(field::AUX_DATA_LEN, value);
    }

    /// Writes the number of sources. Requires at least 4 bytes.
    pub fn set_num_srcs(&mut self, value: u16)
        requires { Reaches num_srcs_field (T.bytes (inner self.old)) }
        ensures writes { Sets inner T.bytes T.put self.old self.new num_srcs_field (big_bytes 2 value) }
        ensures len { KeepsLen inner T.bytes self.old self.new }
    {
        self.buffer.set_u16(field::RECORD_NUM_SRCS, value);
    }

    /// Writes the group. Requires at least 20 bytes, and a multicast address.
    pub fn set_mcast_addr(&mut self, value: Ipv6Address)
        requires room { Reaches mcast_addr_field (T.bytes (inner self.old)) }
        requires group { IsMulticast value }
        ensures writes { Sets inner T.bytes T.put self.old self.new mcast_addr_field (octets_of value) }
        ensures len { KeepsLen inner T.bytes self.old self.new }
    {
        self.buffer
            .set_bytes(field::RECORD_MCAST_ADDR, &value.octets());
    }

    /// Lends the octets after the fields for writing; the fields are unchanged. Requires at least 20 bytes.
    #[tactic(auto, using(wirebase::proofs::Pieces::pieces))]
    pub fn payload_mut(&mut self) -> &mut [u8]
        requires { Reaches mcast_addr_field (T.bytes (inner self.old)) }
        ensures* lends { sem 𝓛 (Lends (the_row T.row) (Array byte 0) self.entry result
            (λ w. with_inner self.old (T.put (inner self.old)
            (splice (T.bytes (inner self.old)) 20 (length (T.bytes (inner self.old))) w)))) }
        ensures value { result.now ≡ payload_in (T.bytes (inner self.old)) }
        ensures len { length result.now ≡ length (T.bytes (inner self.old)) - 20 }
    {
        let len = self.buffer.octets().len();
        self.buffer.range_mut(field::RECORD_MCAST_ADDR.end, len)
    }
}

/// Views are equal where their octets are equal.
impl<T: Octets> PartialEq for AddressRecord<T> {
    ghost use Rattle.std.specs.Prelude.{◌==◌};
    ghost use Rattle.std.proofs.Common.{rules};
    ghost use Rattle.std.specs.Cmp.Lexicographic.{pointwise};
    ghost use Rattle.std.specs.Cmp.Rules.{comparing};
    ghost use Rattle.std.specs.Ordering.{on};

    ghost eq = { on (λ view. T.bytes (inner view)) (pointwise ◌==◌) };

    ghost laws = { Prim.search (comparing, rules) };

    fn eq(&self, other: &AddressRecord<T>) -> bool
        ensures { IsTrue result ↔ (T.bytes (inner self.now) ≡ T.bytes (inner other.now)) }
    {
        self.buffer.octets() == other.buffer.octets()
    }
}

impl<T: Octets> Eq for AddressRecord<T> {
    ghost use Rattle.std.proofs.Common.{rules};
    ghost use Rattle.std.specs.Cmp.Rules.{comparing};

    ghost laws = { Prim.search (comparing, rules) };
}

/// A record of a report (RFC 3810 section 5.2).
#[derive(Debug, PartialEq, Eq, Clone, Copy)]
pub struct AddressRecordRepr<'a> {
    /// What the record says about the group.
    pub record_type: RecordType,
    /// The words of 4 bytes that the auxiliary data has.
    pub aux_data_len: u8,
    /// The number of sources.
    pub num_srcs: u16,
    /// The group.
    pub mcast_addr: Ipv6Address,
    /// The octets after the fields: sources, which [`AddressRecordRepr::sources`] gives in turn, and auxiliary data.
    /// They are not written.
    pub payload: &'a [u8],
}

impl<'a> AddressRecordRepr<'a> {
    /// A record of this type for a group, with no sources and no auxiliary data.
    pub const fn new(record_type: RecordType, mcast_addr: Ipv6Address) -> AddressRecordRepr<'a>
        ensures { value_of result ≡ address_record record_type 0 0 mcast_addr [] }
    {
        AddressRecordRepr {
            record_type,
            aux_data_len: 0,
            num_srcs: 0,
            mcast_addr,
            payload: &[],
        }
    }

    /// The record at the front of the octets; refused where they are fewer than 20. The counts are not compared with
    /// the octets after the fields.
    pub fn parse(view: &AddressRecord<&'a [u8]>) -> Result<AddressRecordRepr<'a>>
        ensures sound { IfOk result (λ repr. IsRecord (view_octets view.now) (value_of repr)) }
        ensures complete { (value : RecordValue) → IsRecord (view_octets view.now) value
            → IsOkAnd result (λ repr. value_of repr ≡ value) }

        // For a multicast address.
        ensures rewrites { IfOk result (λ repr. IsMulticast (group_of (value_of repr))
            → Rewrites format (value_of repr)) }
    {
        are_bytes(view.buffer);
        AddressRecordRepr::read(view)
    }

    // The record at the front of the octets.
    pub(super) fn read(view: &AddressRecord<&'a [u8]>) -> Result<AddressRecordRepr<'a>>
        ensures sound { IfOk result (λ repr. IsRecord (view_octets view.now) (value_of repr)) }
        ensures complete { (value : RecordValue) → IsRecord (view_octets view.now) value
            → IsOkAnd result (λ repr. value_of repr ≡ value) }
        ensures refuses { IsErr result → length (view_octets view.now) < 20 }
    {
        view.check_len()?;
        Ok(AddressRecordRepr::read_whole(view))
    }

    // The record at the front of 20 octets or more.
    pub(super) fn read_whole(view: &AddressRecord<&'a [u8]>) -> AddressRecordRepr<'a>
        requires { Reaches mcast_addr_field (view_octets view.now) }
        ensures { IsRecord (view_octets view.now) (value_of result) }
    {
        AddressRecordRepr {
            record_type: view.record_type(),
            aux_data_len: view.aux_data_len(),
            num_srcs: view.num_srcs(),
            mcast_addr: view.mcast_addr(),
            payload: view.payload(),
        }
    }

    /// The bytes that the record takes, without its payload: 20.
    pub fn buffer_len(&self) -> usize
        ensures { result ≡ 20 }
    {
        field::RECORD_MCAST_ADDR.end
    }

    /// Writes the record over the front of the octets, without its payload; the other octets are unchanged. Requires at
    /// least 20 bytes, and a multicast address.
    pub fn emit<T: OctetsMut>(&self, view: &mut AddressRecord<T>)
        requires room { Reaches mcast_addr_field (T.bytes (inner view.old)) }
        requires group { IsMulticast self.now.mcast_addr }
        ensures place { inner view.new ≡ T.put (inner view.old) (T.bytes (inner view.new)) }
        ensures emits { Emits (value_of self.now) (T.bytes (inner view.old))
            (T.bytes (inner view.new)) }
    {
        self.emit_into(view.buffer.octets_mut());
    }

    /// Like `emit`, but writes into a slice.
    pub fn emit_into(&self, octets: &mut [u8])
        requires room { Reaches mcast_addr_field octets.old }
        requires group { IsMulticast self.now.mcast_addr }
        ensures { Emits (value_of self.now) octets.old octets.new }
    {
        self.write(octets);
    }

    /// Does nothing; its contract states, of two records that a packet can hold, that equal texts mean equal normal
    /// forms, and conversely.
    #[tactic(auto, using(crate::proofs::MldRecords::record_same_text))]
    pub fn same_text(a: &Self, b: &Self)
        ensures { SameText format (value_of a.now) (value_of b.now) }
    {}

    // Writes the fields. Inlined, also into the report around the record where the two are in different codegen units.
    #[inline]
    #[tactic(auto, using(wirebase::proofs::Chains::chain, opt_wire::proofs::FieldsAtOnce::at_once))]
    pub(super) fn write(&self, octets: &mut [u8])
        requires { Reaches mcast_addr_field octets.old }
        ensures { octets.new ≡ over octets.old (text (value_of self.now)) }
    {
        let mut w = ByteWriter::new(octets);
        let [a, b] = self.num_srcs.to_be_bytes();
        w.put_bytes(&[self.record_type.into(), self.aux_data_len, a, b]);
        put_address(&mut w, &self.mcast_addr);
    }
}
