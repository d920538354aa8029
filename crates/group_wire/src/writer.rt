//! Records of reports written one after another (RFC 3376 section 4.2, RFC 3810 section 5.2).

ghost use Rattle.std.specs.Prelude.{◌≡◌, ◌≤◌, ◌+◌, ◌*◌, ◌↔◌, ◌++◌, ◌∷◌, [], drop, length, take, map, IsOk, OnOk, OnErr};
ghost use Rattle.std.specs.List.{concat};
ghost use Rattle.wirebase.specs.Bytes.{over};
ghost use Rattle.wirebase.specs.ByteWriter as byte_writer;
ghost use Rattle.wirebase.specs.ByteWriter.{Puts};
ghost use Rattle.wirebase.specs.Numbered.{IsProper};
ghost use Rattle.icmp6_wire.specs.MldTables.{record_type_rows};
ghost use Rattle.icmp6_wire.specs.declared.mld.tables.RecordType.{RecordType};
ghost use Rattle.group_wire.specs.Family.{width};
ghost use Rattle.group_wire.specs.Record.{group_record, record_fields, text, sources_at, IsRecord};
ghost use Rattle.group_wire.specs.Records.{records_len_in, records_ahead};

use crate::address::Address;
use crate::record::RecordType;
use crate::records::Records;
use crate::sources::put_addresses;
use std::marker::PhantomData;
use wirebase::ByteWriter;

/// There is no room for a record: the caller sends the report that it has, and begins another (RFC 3376 section 4.2.16,
/// RFC 3810 section 5.2.15).
#[derive(Debug, PartialEq, Eq, Clone, Copy)]
pub struct Full;

/// Writes the records of a report into lent octets, one after another.
#[derive(Drop)]
pub struct RecordsWriter<'a, A: Address> {
    buffer: &'a mut [u8],
    position: usize,
    count: u16,
    address: PhantomData<A>,
    ghost within: { position ≤ length buffer.now },
    ghost whole: { records_len_in (width A.family) count (take position buffer.now) ≡ position },
}

impl<'a, A: Address> RecordsWriter<'a, A> {
    ghost use Rattle.group_wire.specs.Records.{count_in, octets_in};
    ghost use Rattle.group_wire.specs.Writer.{settled, count_of, free, the_slice, Fits, IsUnchanged};

    /// A writer over these octets that has written no record.
    pub fn new(buffer: &'a mut [u8]) -> RecordsWriter<'a, A>
        ensures settled { settled result ≡ [] }
        ensures count { count_of result ≡ 0 }
        ensures free { free result ≡ buffer.old }
        ensures same_slice { the_slice result ≡ buffer.entry.ghost_name }
    {
        RecordsWriter {
            buffer,
            position: 0,
            count: 0,
            address: PhantomData,
        }
    }

    /// Writes a record of this type for a group, with these sources and without auxiliary data. Refused where fewer
    /// bytes are free than it takes (in IGMP 8, and 4 for each source; in MLD 20, and 16 for each), where it has more
    /// than 65,535 sources, and where 65,535 records are written; then nothing changes.
    pub fn push(&mut self, record_type: RecordType, group: A, sources: &[A]) -> Result<(), Full>
        ensures accepts { IsOk result
            ↔ Fits (width A.family) (count_of self.old) (length (free self.old)) (length sources.now) }
        ensures settled { OnOk result (settled self.new ≡ settled self.old ++ text (width A.family)
            (group_record record_type (A.bytes group) (concat (map A.bytes sources.now)) [])) }
        ensures count { OnOk result (count_of self.new ≡ count_of self.old + 1) }
        ensures free { OnOk result (free self.new
            ≡ drop (sources_at (width A.family) + width A.family * length sources.now) (free self.old)) }

        // It is read behind the others, as a record with this content.
        ensures listed { OnOk result (records_ahead (width A.family) (count_of self.new) (settled self.new)
            ≡ records_ahead (width A.family) (count_of self.old) (settled self.old)
            ++ text (width A.family) (group_record record_type (A.bytes group)
            (concat (map A.bytes sources.now)) []) ∷ []) }
        ensures read { OnOk result (IsProper RecordType.Unknown record_type_rows record_type
            → IsRecord (width A.family) (text (width A.family) (group_record record_type (A.bytes group)
            (concat (map A.bytes sources.now)) []))
            (group_record record_type (A.bytes group) (concat (map A.bytes sources.now)) [])) }
        ensures refused { OnErr result (IsUnchanged self.old self.new) }
        ensures same_slice { the_slice self.new ≡ the_slice self.old }
    {
        if self.count == u16::MAX || sources.len() > u16::MAX as usize {
            return Err(Full);
        }
        let width = A::width();
        let len = 4 + width + width * sources.len();
        if self.buffer.len() - self.position < len {
            return Err(Full);
        }
        let end = self.position + len;
        let place = &mut self.buffer[self.position..end];
        write_record(record_type, &group, sources, place);
        self.position = end;
        self.count += 1;
        Ok(())
    }

    /// Forgets the records, so that all octets are free.
    pub fn clear(&mut self)
        ensures settled { settled self.new ≡ [] }
        ensures count { count_of self.new ≡ 0 }
        ensures free { length (free self.new) ≡ length (settled self.old) + length (free self.old) }
        ensures same_slice { the_slice self.new ≡ the_slice self.old }
    {
        self.position = 0;
        self.count = 0;
    }

    /// The records that are written.
    pub fn records(&self) -> Records<'_, A>
        ensures count { count_in result ≡ count_of self.now }
        ensures octets { octets_in result ≡ settled self.now }
        ensures whole { records_len_in (width A.family) (count_in result) (octets_in result)
            ≡ length (octets_in result) }
    {
        Records::new(self.count, &self.buffer[..self.position])
    }
}

// Writes a record without auxiliary data into octets of its length.
#[tactic(auto, using(wirebase::proofs::Chains::chain))]
fn write_record<A: Address>(record_type: RecordType, group: &A, sources: &[A], octets: &mut [u8])
    requires whole { length octets.old ≡ sources_at (width A.family) + width A.family * length sources.now }
    requires few { length sources.now ≤ 65535 }
    ensures { octets.new ≡ over octets.old (text (width A.family)
        (group_record record_type (A.bytes group.now) (concat (map A.bytes sources.now)) [])) }
{
    let mut w = ByteWriter::new(octets);
    put_record(&mut w, record_type, group, sources);
}

// Writes the fields of a record without auxiliary data.
fn put_record<A: Address>(w: &mut ByteWriter<'_>, record_type: RecordType, group: &A, sources: &[A])
    requires room { sources_at (width A.family) + width A.family * length sources.now
        ≤ length (byte_writer.free w.old) }
    requires few { length sources.now ≤ 65535 }
    ensures { Puts w.old w.new (record_fields (width A.family)
        (group_record record_type (A.bytes group.now) (concat (map A.bytes sources.now)) [])) }
{
    w.put_u8(record_type.into());
    w.put_u8(0);
    w.put_u16(sources.len() as u16);
    group.put(w);
    put_addresses(w, sources);
}
