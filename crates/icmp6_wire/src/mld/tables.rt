//! The numbers of multicast listener discovery (RFC 3810 section 5.2.12).

ghost use Rattle.std.specs.Prelude.{◌≡◌, Some};
ghost use Rattle.wirebase.specs.Numbered.{IsProper, IsTable};
ghost use Rattle.icmp6_wire.specs.MldDisplay.{record_type_display};
ghost use Rattle.icmp6_wire.specs.MldTables.{record_type_number, record_type_rows, record_type_of};

use std::fmt;

/// What a record says about the sources that a listener asks of a group, one byte (RFC 3810 section 5.2.12).
#[derive(Debug, PartialEq, Eq, PartialOrd, Ord, Clone, Copy)]
pub enum RecordType {
    /// It listens to these sources alone.
    ModeIsInclude,
    /// It listens to all sources but these.
    ModeIsExclude,
    /// From now on it listens to these sources alone.
    ChangeToInclude,
    /// From now on it listens to all sources but these.
    ChangeToExclude,
    /// It listens to these sources too.
    AllowNewSources,
    /// It listens to these sources no longer.
    BlockOldSources,
    /// Any other type, by its number.
    Unknown(u8),
}

impl From<u8> for RecordType {
    ghost from_gives = { λ number record_type. record_type ≡ record_type_of number };

    fn from(number: u8) -> RecordType
        ensures value { result ≡ record_type_of number }
        ensures back { record_type_number result ≡ number }
        ensures table { IsTable ⟦<RecordType as Ord>⟧.cmp RecordType.Unknown record_type_rows }
    {
        record_type_numbered(number)
    }
}

// The type of a number.
fn record_type_numbered(number: u8) -> RecordType
    ensures { result ≡ record_type_of number }
{
    match number {
        1 => RecordType::ModeIsInclude,
        2 => RecordType::ModeIsExclude,
        3 => RecordType::ChangeToInclude,
        4 => RecordType::ChangeToExclude,
        5 => RecordType::AllowNewSources,
        6 => RecordType::BlockOldSources,
        other => RecordType::Unknown(other),
    }
}

impl From<RecordType> for u8 {
    ghost from_gives = { λ record_type number. number ≡ record_type_number record_type };

    fn from(record_type: RecordType) -> u8
        ensures value { result ≡ record_type_number record_type }
        ensures back { IsProper RecordType.Unknown record_type_rows record_type
            → record_type_of result ≡ record_type }
    {
        match record_type {
            RecordType::ModeIsInclude => 1,
            RecordType::ModeIsExclude => 2,
            RecordType::ChangeToInclude => 3,
            RecordType::ChangeToExclude => 4,
            RecordType::AllowNewSources => 5,
            RecordType::BlockOldSources => 6,
            RecordType::Unknown(other) => other,
        }
    }
}

/// The name of the type, as `MODE_IS_INCLUDE`, and of any other its number, as `unknown 7`.
impl fmt::Display for RecordType {
    ghost output = { λ record_type. Some (record_type_display record_type) };

    fn fmt<W: fmt::Write>(&self, f: &mut fmt::Formatter<W>) -> fmt::Result {
        let words = match self {
            RecordType::ModeIsInclude => "MODE_IS_INCLUDE",
            RecordType::ModeIsExclude => "MODE_IS_EXCLUDE",
            RecordType::ChangeToInclude => "CHANGE_TO_INCLUDE_MODE",
            RecordType::ChangeToExclude => "CHANGE_TO_EXCLUDE_MODE",
            RecordType::AllowNewSources => "ALLOW_NEW_SOURCES",
            RecordType::BlockOldSources => "BLOCK_OLD_SOURCES",
            RecordType::Unknown(number) => return write!(f, "unknown {number}"),
        };
        f.write_str(words)
    }
}
