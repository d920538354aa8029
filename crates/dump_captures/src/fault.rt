//! Faults: what ends the printing of a capture before the capture ends.

ghost use Rattle.std.specs.IoError.{error_kind};
ghost use Rattle.std.specs.Prelude.{◌≡◌};
ghost use Rattle.dump_captures.specs.Fault.{fault_of, fault_of_capture};

use std::io;
use std::io::ErrorKind;

/// What ends the printing of a capture before the capture ends.
#[derive(Debug, PartialEq, Eq, Clone, Copy)]
pub enum Fault {
    /// The input could not be read.
    Read,
    /// The output could not be written.
    Write,
    /// Nobody reads the output any more.
    Closed,
    /// There was no memory.
    Memory,
}

/// An error of writing, or of memory for what is to be written.
impl From<io::Error> for Fault {
    ghost from_gives = { λ error fault. fault ≡ fault_of (error_kind error) };

    fn from(error: io::Error) -> Fault
        ensures { result ≡ fault_of (error_kind error) }
    {
        match error.kind() {
            ErrorKind::BrokenPipe => Fault::Closed,
            ErrorKind::OutOfMemory => Fault::Memory,
            _ => Fault::Write,
        }
    }
}

/// An error of reading.
impl From<capture::Fault> for Fault {
    ghost from_gives = { λ cause fault. fault ≡ fault_of_capture cause };

    fn from(fault: capture::Fault) -> Fault
        ensures { result ≡ fault_of_capture fault }
    {
        match fault {
            capture::Fault::Read => Fault::Read,
            capture::Fault::Memory => Fault::Memory,
        }
    }
}
