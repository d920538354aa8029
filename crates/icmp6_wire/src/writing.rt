// Writers that the messages of all three protocols share.

ghost use Rattle.std.specs.Prelude.{◌≡◌, ◌≤◌, ◌+◌, [], ◌∷◌, length};
ghost use Rattle.wirebase.specs.ByteWriter.{free, Puts};
ghost use Rattle.wirebase.specs.Ipv6Address.{octets_of};

use wirebase::{ByteWriter, Ipv6Address};

// Writes an address.
pub(crate) fn put_address(w: &mut ByteWriter<'_>, address: &Ipv6Address)
    requires room { 16 ≤ length (free w.old) }
    ensures puts { Puts w.old w.new (octets_of address.now ∷ []) }
    ensures room { length (free w.old) ≡ 16 + length (free w.new) }
{
    w.put_bytes(&address.octets());
}
