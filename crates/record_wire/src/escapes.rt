//! Bytes of labels and of strings as a zone file has them (RFC 1035 section 5.1). They are put together in a piece
//! before they are put into an output, since each call costs.

ghost use Rattle.std.specs.Prelude.{◌≡◌, ◌≤◌, ◌+◌, ◌++◌, [], ◌∷◌, IfOk, flat_map, take};
ghost use Rattle.std.specs.Str.{IsAscii};
ghost use Rattle.record_wire.specs.Escapes.{escaped};
ghost use Rattle.record_wire.specs.private.Escapes.{hidden_text, is_plain, is_set, plain_table};
ghost use Rattle.record_wire.specs.private.Pieces.{TakesOnOk};

use std::result;
use wirebase::text::Sink;

/// What bytes are in, where some of them have a meaning of their own.
#[derive(Clone, Copy)]
pub(crate) enum Escaping {
    /// A label of a name, in which a space is not visible.
    Label,
    /// A string in quotes.
    String,
}

/// The octets of a piece, and the most octets that a byte is written as.
pub(crate) const PIECE_LEN: usize = 64;

const BYTE_LEN: usize = 4;

/// Puts bytes behind those that wait in a piece, `waiting` of them, and returns how many then wait: one that is visible
/// as itself, after a backslash where it has a meaning of its own, and one that is not by its number. The number that
/// waits is not a field of the piece, so that it stays in a register. Inlined, so that the table is
/// a constant.
#[inline(always)]
pub(crate) fn put_bytes<O, S: Sink<O>>(
    output: &mut O,
    piece: &mut [u8; PIECE_LEN],
    waiting: usize,
    bytes: &[u8],
    escaping: Escaping,
) -> result::Result<usize, S::Error>
    requires waiting { waiting ≤ 64 }
    requires ascii { IsAscii (take waiting piece.old) }
    ensures fits { IfOk result (λ len. len ≤ 64) }
    ensures takes { TakesOnOk S.took output.old (take waiting piece.old) result (flat_map (escaped escaping) bytes.now)
        output.new piece.new }
{
    let plain = plain_of(escaping);
    let mut len = waiting;
    for byte in bytes {
        len = make_room::<O, S>(output, piece, len)?;
        if is_set(plain, *byte) {
            piece[len] = *byte;
            len += 1;
        } else {
            len = put_hidden(piece, len, *byte);
        }
    }
    Ok(len)
}

/// Puts an octet of ASCII, as it is, behind those that wait in a piece, and returns how many then wait.
pub(crate) fn put_one<O, S: Sink<O>>(
    output: &mut O,
    piece: &mut [u8; PIECE_LEN],
    waiting: usize,
    octet: u8,
) -> result::Result<usize, S::Error>
    requires waiting { waiting ≤ 64 }
    requires ascii { IsAscii (take waiting piece.old) }
    requires octet { octet ≤ 127 }
    ensures fits { IfOk result (λ len. len ≤ 64) }
    ensures takes { TakesOnOk S.took output.old (take waiting piece.old) result (octet ∷ []) output.new piece.new }
{
    let len = make_room::<O, S>(output, piece, waiting)?;
    piece[len] = octet;
    Ok(len + 1)
}

// Puts what waits into the output, where the longest text of a byte does not fit after it.
fn make_room<O, S: Sink<O>>(
    output: &mut O,
    piece: &[u8; PIECE_LEN],
    waiting: usize,
) -> result::Result<usize, S::Error>
    requires waiting { waiting ≤ 64 }
    requires ascii { IsAscii (take waiting piece.now) }
    ensures room { IfOk result (λ len. len + 4 ≤ 64) }
    ensures takes { TakesOnOk S.took output.old (take waiting piece.now) result [] output.new piece.now }
{
    if waiting <= PIECE_LEN - BYTE_LEN {
        return Ok(waiting);
    }
    S::put(output, &piece[..waiting])?;
    Ok(0)
}

// Puts a byte that is not written as itself behind those that wait, and returns how many then wait. A function of its
// own, so that the loop over those that are stays small.
#[inline(never)]
#[tactic(auto, using(std::proofs::lemmas::List::take_more_set))]
fn put_hidden(piece: &mut [u8; PIECE_LEN], waiting: usize, byte: u8) -> usize
    requires { waiting + 4 ≤ 64 }
    ensures fits { result ≤ 64 }
    ensures puts { take result piece.new ≡ take waiting piece.old ++ hidden_text byte }
{
    piece[waiting] = b'\\';
    // A visible byte is not written as itself where it has a meaning of its own.
    if byte.is_ascii_graphic() {
        piece[waiting + 1] = byte;
        return waiting + 2;
    }
    piece[waiting + 1] = b'0' + byte / 100;
    piece[waiting + 2] = b'0' + byte / 10 % 10;
    piece[waiting + 3] = b'0' + byte % 10;
    waiting + 4
}

// A bit for each byte, the first word's lowest for byte 0: whether it is written as itself.
const PLAIN_IN_LABEL: [u64; 4] = [0xf7ff_bcea_0000_0000, 0x7fff_ffff_efff_fffe, 0, 0];

const PLAIN_IN_STRING: [u64; 4] = [0xffff_fffb_0000_0000, 0x7fff_ffff_efff_ffff, 0, 0];

/// Whether a byte is written as itself.
pub(crate) fn is_plain(byte: u8, escaping: Escaping) -> bool
    ensures { result ≡ is_plain escaping byte }
{
    is_set(plain_of(escaping), byte)
}

// The table of the bytes that are written as themselves.
#[inline(always)]
fn plain_of(escaping: Escaping) -> &'static [u64; 4]
    ensures { result.now ≡ plain_table escaping }
{
    match escaping {
        Escaping::Label => &PLAIN_IN_LABEL,
        Escaping::String => &PLAIN_IN_STRING,
    }
}

// Whether the bit of a byte is set. A table: a branch for each byte would be mispredicted.
#[inline(always)]
fn is_set(table: &[u64; 4], byte: u8) -> bool
    ensures { result ≡ is_set table.now byte }
{
    table[(byte / 64) as usize] >> (byte % 64) & 1 == 1
}
