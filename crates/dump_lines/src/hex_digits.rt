//! Octets from hexadecimal digits, two for each. Nothing branches by a digit, so that many digits are converted at
//! once.

ghost use Rattle.std.specs.Prelude.{◌≡◌, ◌*◌, ◌/◌, ◌<◌, ◌≤◌, Some, length, take, true};
ghost use Rattle.std.specs.List.{AllPass, list_all};
ghost use Rattle.hex.specs.Hex.{hex_digit_value, is_hex_digit};
ghost use Rattle.dump_lines.specs.Words.{spelled_by};

/// Whether all are hexadecimal digits, of either case.
#[inline]
pub fn are_digits(text: &[u8]) -> bool
    ensures { result ≡ list_all is_hex_digit text.now }
{
    let mut are = true;
    for octet in text {
        are &= is_digit(*octet);
    }
    are
}

fn is_digit(octet: u8) -> bool
    ensures { result ≡ is_hex_digit octet }
{
    let decimal = (octet >= b'0') & (octet <= b'9');
    let upper = (octet >= b'A') & (octet <= b'F');
    let lower = (octet >= b'a') & (octet <= b'f');
    decimal | upper | lower
}

/// The octets that digits spell.
// Always inlined: as a call it costs a run of the program 5 % of its instructions.
#[inline(always)]
pub fn decode(text: &[u8], octets: &mut [u8])
    requires even { length text.now ≡ 2 * length octets.old }
    requires digits { list_all is_hex_digit text.now ≡ true }
    ensures { spelled_by text.now ≡ Some octets.new }
{
    let words = octets.len() / 4;
    'words: for i in 0..words {
        let Some(digits) = text[8 * i..].first_chunk() else {
            unreachable!();
        };
        octets[4 * i..4 * i + 4].copy_from_slice(&decode_word(digits));
    }
    'octets: for i in 4 * words..octets.len() {
        octets[i] = 16 * digit_value(text[2 * i]) + digit_value(text[2 * i + 1]);
    }
}

// The bits that are kept of each octet of a word of digits: those of its value, and the bit of a letter, moved to the
// lowest.
const VALUES: u64 = 0x0f0f_0f0f_0f0f_0f0f;

const LETTERS: u64 = 0x0101_0101_0101_0101;

// Every other octet of a word.
const OCTETS: u64 = 0x00ff_00ff_00ff_00ff;

// The octets that eight digits spell, where the first digit is the lowest octet of a word. Each step is on the whole
// word, so that one instruction does for all digits what `digit_value` does for one.
#[inline(always)]
fn decode_word(digits: &[u8; 8]) -> [u8; 4]
    requires { AllPass is_hex_digit digits.now }
    ensures { spelled_by digits.now ≡ Some result }
{
    let word = u64::from_le_bytes(*digits);
    let values = (word & VALUES) + 9 * ((word / 64) & LETTERS);
    // Each value and the next make an octet; every other octet is kept, and these are moved together.
    let octets = (16 * values + values / 256) & OCTETS;
    let pairs = octets + octets / 256;
    let whole = (pairs % 65_536 + pairs / (1 << 32) * 65_536) % (1 << 32);
    (whole as u32).to_le_bytes()
}

/// Writes the octets that digits spell into a buffer for them.
#[inline]
pub fn decode_front(text: &[u8], packet_buffer: &mut [u8])
    requires even { length text.now ≡ 2 * (length text.now / 2) }
    requires packet_buffer { length text.now / 2 ≤ length packet_buffer.old }
    requires digits { list_all is_hex_digit text.now ≡ true }
    ensures { spelled_by text.now ≡ Some (take (length text.now / 2) packet_buffer.new) }
{
    let count = text.len() / 2;
    decode(text, &mut packet_buffer[..count]);
}

// The value of a digit: its low four bits, and 9 more for a letter, which alone has the bit of 64.
fn digit_value(digit: u8) -> u8
    requires { is_hex_digit digit ≡ true }
    ensures value { hex_digit_value digit ≡ Some result }
    ensures small { result < 16 }
{
    digit % 16 + 9 * (digit / 64)
}
