//! The codes of times (RFC 3376 section 4.1.1).

ghost use Rattle.std.specs.Prelude.{◌≡◌, ◌*◌, ◌<◌, ℕ};
ghost use Rattle.wirebase.specs.Duration.{micros_of};
ghost use Rattle.icmp4_wire.specs.IgmpCode.{code_millis, IsGreatestCode, code_of};

use wirebase::Duration;

// The bit of a code that has an exponent and a mantissa: a code without it is a number of tenths of a second.
const FLOATING: u8 = 0x80;

// The tenths of a second of the last code, 0xff.
const LONGEST: u64 = 31_744;

/// The maximum response time of a code of version 3 (RFC 3376 section 4.1.1): tenths of a second below 128, above that
/// a mantissa and an exponent; 3,174.4 seconds at most. The code of a querier's interval (section 4.1.7) is such a code
/// with seconds in the place of tenths.
///
/// ```
/// use control_wire::Duration;
/// use control_wire::igmp::{code_of_duration, duration_of_code};
///
/// assert_eq!(duration_of_code(100), Duration::from_secs(10));
/// assert_eq!(duration_of_code(0x89), Duration::from_secs(20));
/// assert_eq!(code_of_duration(Duration::from_secs(20)), 0x89);
/// ```
#[tactic(auto, using(crate::proofs::IgmpCode::reading))]
#[inline]
pub fn duration_of_code(code: u8) -> Duration
    ensures value { micros_of result ≡ 1000 * code_millis code }
    ensures rises { (a b : ℕ) → a < b → b < 256 → code_millis a < code_millis b }
{
    let tenths = if code < FLOATING {
        code as u64
    } else {
        let exponent = (code >> 4) & 0x07;
        let mantissa = 0x10 | (code & 0x0f);
        (mantissa as u64) << (exponent + 3)
    };
    Duration::from_millis(100 * tenths)
}

/// The code of the longest maximum response time that does not exceed this one (RFC 3376 section 4.1.1).
#[inline]
pub fn code_of_duration(duration: Duration) -> u8
    ensures value { result ≡ code_of duration }
    ensures greatest { IsGreatestCode (micros_of duration) result }
    ensures back { (code : ℕ) → code < 256 → micros_of duration ≡ 1000 * code_millis code
        → result ≡ code }
{
    let tenths = (duration.total_millis() / 100).min(LONGEST) as u16;
    if tenths < FLOATING as u16 {
        return tenths as u8;
    }
    // The first bit of the mantissa is always set, and is not written.
    let exponent = tenths.ilog2() - 7;
    let mantissa = (tenths >> (exponent + 3)) & 0x0f;
    FLOATING | (exponent << 4) as u8 | mantissa as u8
}
