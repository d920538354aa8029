//! The extension structure: behind what an error quotes (RFC 4884 section 7), and all that an extended echo request has
//! behind its header (RFC 8335 section 2).

ghost use Rattle.std.specs.Prelude.{◌≡◌, ◌≤◌, ◌<◌, ◌+◌, ◌^◌, ◌∷◌, [], map, length, List, ℕ, Ok, IfOk, IfErr, IsOkAnd};
ghost use Rattle.std.specs.List.{AllByRecursion};
ghost use Rattle.wirebase.specs.Bytes.{over};
ghost use Rattle.wirebase.specs.ByteWriter.{fields, free, Puts};
ghost use Rattle.extension_wire.specs.Object.{value_of as object_value, text as object_text, text_len as object_len};
ghost use Rattle.extension_wire.specs.Object.{IsCanonical};
ghost use Rattle.extension_wire.specs.Objects.{Tile, octets_in};
ghost use Rattle.extension_wire.specs.Structure.{IsStructure, Refuses, version_in};
ghost use Rattle.extension_wire.specs.Writer.{objects_len, objects_text, structure_fields, structure_text};

use crate::object::{Object, Objects};
use crate::refusal::StructureRefusal;
use wirebase::{ByteWriter, Octets, checksum};

// The fields of the structure's header; their picture is in specs/Structure.antt.
pub(crate) mod field {
    use wirebase::Field;

    pub const VERSION: Field = 0..1;

    pub const CHECKSUM: Field = 2..4;
}

// The bytes of the header.
pub(crate) const HEADER_LEN: usize = 4;

// The version, in the upper four bits of the first byte.
pub(crate) const VERSION: u8 = 2;

/// The objects of the extension structure that is all of these octets. The reserved bits are not looked at; the
/// checksum is verified unless it is zero, which says that none was computed. The objects are not read yet, and there
/// may be none.
pub fn parse(octets: &[u8]) -> Result<Objects<'_>, StructureRefusal>
    ensures sound { IfOk result (λ objects. IsStructure octets.now (octets_in objects)) }
    ensures complete { (inside : List ℕ) → IsStructure octets.now inside
        → IsOkAnd result (λ objects. octets_in objects ≡ inside) }
    ensures told { IfErr result (Refuses octets.now) }
{
    if octets.len() < HEADER_LEN {
        return Err(StructureRefusal::Short);
    }
    let version = version(octets);
    if version != VERSION {
        return Err(StructureRefusal::Version(version));
    }
    if octets.u16_at(field::CHECKSUM) != 0 && !checksum::is_good(octets, 0) {
        return Err(StructureRefusal::Checksum);
    }
    Ok(Objects::new(&octets[HEADER_LEN..]))
}

// The version.
pub(crate) fn version(octets: &[u8]) -> u8
    requires { 4 ≤ length octets.now }
    ensures { result ≡ version_in octets.now }
{
    octets.u8_at(field::VERSION) / 16
}

/// The bytes of a structure with these objects. Requires that the objects have fewer than 65,536.
pub fn buffer_len(objects: &[Object<'_>]) -> usize
    requires { objects_len (map object_value objects.now) < 2 ^ 16 }
    ensures { result ≡ 4 + objects_len (map object_value objects.now) }
{
    let mut len = HEADER_LEN;
    for object in objects {
        len += object.buffer_len();
    }
    len
}

/// Writes a structure with these objects, and the checksum of all of it, over the octets. [`parse`] then gives the
/// objects, each as it is where it is canonical. Requires exactly `buffer_len` bytes, and objects of fewer than 65,536.
pub fn emit(objects: &[Object<'_>], octets: &mut [u8])
    requires room { 4 + objects_len (map object_value objects.now) ≡ length octets.old }
    requires fits { objects_len (map object_value objects.now) < 2 ^ 16 }
    ensures text { octets.new ≡ structure_text (map object_value objects.now) }
    ensures structure { IsStructure octets.new (objects_text (map object_value objects.now)) }
    ensures objects { AllByRecursion IsCanonical (map object_value objects.now)
        → Tile (objects_text (map object_value objects.now)) (map Ok (map object_value objects.now)) }
{
    write_fields(octets, objects);
    checksum::fill(octets, field::CHECKSUM, 0);
}

// Writes a structure over the octets, with a checksum of zero.
#[tactic(auto, using(wirebase::proofs::Chains::chain))]
fn write_fields(octets: &mut [u8], objects: &[Object<'_>])
    requires room { 4 + objects_len (map object_value objects.now) ≤ length octets.old }
    requires fits { objects_len (map object_value objects.now) < 2 ^ 16 }
    ensures { octets.new ≡ over octets.old (fields (structure_fields (map object_value objects.now))) }
{
    let mut w = ByteWriter::new(octets);
    w.put_u8(VERSION * 16);
    w.put_u8(0);
    w.put_u16(0);
    put_objects(&mut w, objects);
}

// Writes objects one after another.
#[tactic(auto, using(std::proofs::lemmas::List::drop_all))]
fn put_objects(w: &mut ByteWriter<'_>, objects: &[Object<'_>])
    requires room { objects_len (map object_value objects.now) ≤ length (free w.old) }
    requires fits { objects_len (map object_value objects.now) < 2 ^ 16 }
    ensures { Puts w.old w.new (map object_text (map object_value objects.now)) }
{
    for object in objects {
        put_object(w, object);
    }
}

// Writes an object.
fn put_object(w: &mut ByteWriter<'_>, object: &Object<'_>)
    requires room { object_len (object_value object.now) ≤ length (free w.old) }
    requires fits { object_len (object_value object.now) < 2 ^ 16 }
    ensures puts { Puts w.old w.new (object_text (object_value object.now) ∷ []) }
    ensures room { length (free w.old)
        ≡ object_len (object_value object.now) + length (free w.new) }
{
    object.put(w);
}
