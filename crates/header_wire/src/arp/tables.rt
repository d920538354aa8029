//! The operations of packets of ARP.

ghost use Rattle.std.specs.Prelude.{◌≡◌, Some};
ghost use Rattle.wirebase.specs.Numbered.{IsProper, IsTable};
ghost use Rattle.header_wire.specs.ArpTables.{operation_number, operation_rows, operation_of};
ghost use Rattle.header_wire.specs.ArpTables.{operation_display};

use std::fmt;

/// What a packet is for (RFC 826).
#[derive(Debug, PartialEq, Eq, PartialOrd, Ord, Clone, Copy)]
pub enum Operation {
    /// The sender asks the target for its hardware address: 1.
    Request,
    /// The sender tells its own: 2.
    Reply,
    /// Any other operation, by its number.
    Unknown(u16),
}

impl From<u16> for Operation {
    ghost from_gives = { λ number operation. operation ≡ operation_of number };

    fn from(number: u16) -> Operation
        ensures value { result ≡ operation_of number }
        ensures back { operation_number result ≡ number }
        ensures table { IsTable ⟦<Operation as Ord>⟧.cmp Operation.Unknown operation_rows }
    {
        match number {
            1 => Operation::Request,
            2 => Operation::Reply,
            other => Operation::Unknown(other),
        }
    }
}

impl From<Operation> for u16 {
    ghost from_gives = { λ operation number. number ≡ operation_number operation };

    fn from(operation: Operation) -> u16
        ensures value { result ≡ operation_number operation }
        ensures back { IsProper Operation.Unknown operation_rows operation
            → operation_of result ≡ operation }
    {
        match operation {
            Operation::Request => 1,
            Operation::Reply => 2,
            Operation::Unknown(other) => other,
        }
    }
}

/// The name, or the number where there is none, as `operation 3`.
impl fmt::Display for Operation {
    ghost output = { λ operation. Some (operation_display operation) };

    fn fmt<W: fmt::Write>(&self, f: &mut fmt::Formatter<W>) -> fmt::Result {
        match self {
            Operation::Request => write!(f, "request"),
            Operation::Reply => write!(f, "reply"),
            Operation::Unknown(number) => write!(f, "operation {number}"),
        }
    }
}
