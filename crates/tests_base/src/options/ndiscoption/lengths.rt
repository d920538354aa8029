//! Addresses of other lengths than 6 bytes, and options of each number of units.

ghost use Rattle.std.specs.Prelude.{◌≤◌, length};

use super::{REDIRECTED, read};
use crate::testing::{FILLERS, holds_of, same, same_of};
use opt_wire::ndiscoption::{NdiscOption, Repr};
use std::process::Abort;
use wirebase::RawHardwareAddress;

fn is_read(bytes: &[u8]) -> bool {
    read(bytes).is_ok()
}

// Writes a source's address over more octets than it takes, of any kind, of which the others stay.
fn check_address_is_written(rt: &impl Abort, address: &[u8], bytes: &[u8]) {
    holds_of(rt, address, address.len() <= 8);
    let repr = Repr::SourceLinkLayerAddr(RawHardwareAddress::from_bytes(address));
    let len = repr.buffer_len();
    for &filler in FILLERS {
        let mut buffer = [filler; 20];
        repr.emit_into(&mut buffer);
        same_of(rt, filler, &buffer[..len], bytes);
        same_of(rt, filler, &buffer[len..], &[filler; 20][len..]);
    }
}

// Compares the source's address that is read in these bytes.
fn check_address_is_read(rt: &impl Abort, bytes: &[u8], address: &[u8])
    requires { length address.now ≤ 8 }
{
    let value = Repr::SourceLinkLayerAddr(RawHardwareAddress::from_bytes(address));
    same(rt, &read(bytes), &Ok(value));
}

#[test]
fn addresses_of_other_lengths(rt: HostRuntime) {
    // An address, its option, and the address that is read in it.
    const ROWS: &[(&[u8], &[u8], &[u8])] = &[
        (&[], &[0x01, 0x01, 0, 0, 0, 0, 0, 0], &[0; 6]),
        (
            &[0xaa],
            &[0x01, 0x01, 0xaa, 0, 0, 0, 0, 0],
            &[0xaa, 0, 0, 0, 0, 0],
        ),
        (
            &[1, 2, 3, 4, 5, 6, 7],
            &[0x01, 0x02, 1, 2, 3, 4, 5, 6, 7, 0, 0, 0, 0, 0, 0, 0],
            &[1, 2, 3, 4, 5, 6, 7, 0],
        ),
        (
            &[1, 2, 3, 4, 5, 6, 7, 8],
            &[0x01, 0x02, 1, 2, 3, 4, 5, 6, 7, 8, 0, 0, 0, 0, 0, 0],
            &[1, 2, 3, 4, 5, 6, 7, 8],
        ),
    ];
    for &(address, bytes, again) in ROWS {
        check_address_is_written(&rt, address, bytes);
        check_address_is_read(&rt, bytes, again);
    }
}

#[test]
fn long_address_options_are_written_shorter_and_then_the_same(rt: HostRuntime) {
    const LONG: &[u8] = &[
        0x01, 0x03, 0xaa, 0xaa, 0xaa, 0xaa, 0xaa, 0xaa, 0xaa, 0xaa, 0xaa, 0xaa, 0xaa, 0xaa, 0xaa,
        0xaa, 0xaa, 0xaa, 0xaa, 0xaa, 0xaa, 0xaa, 0xaa, 0xaa,
    ];
    const SHORTER: &[u8] = &[
        0x01, 0x02, 0xaa, 0xaa, 0xaa, 0xaa, 0xaa, 0xaa, 0xaa, 0xaa, 0, 0, 0, 0, 0, 0,
    ];
    check_address_is_read(&rt, LONG, &[0xaa; 8]);
    check_address_is_written(&rt, &[0xaa; 8], SHORTER);
    check_address_is_read(&rt, SHORTER, &[0xaa; 8]);
}

// Compares whether an option of so many units is whole, and whether it is read.
fn check_units(rt: &impl Abort, kind: u8, units: usize, whole: bool, reads: bool)
    requires { units ≤ 6 }
{
    let mut bytes = [0; 48];
    bytes[0] = kind;
    bytes[1] = units as u8;
    // All units but for a byte.
    let shorter = &bytes[..(8 * units).saturating_sub(1)];
    let found = [
        NdiscOption::new_unchecked(&bytes[..]).check_len().is_ok(),
        NdiscOption::new_checked(&bytes[..]).is_ok(),
        is_read(&bytes),
        is_read(shorter),
    ];
    let wanted = [whole, whole && units > 0, reads, false];
    same_of(rt, (kind, units), found, wanted);
}

#[test]
fn options_of_each_type_and_number_of_units(rt: HostRuntime) {
    // The type, and for 0 to 6 units whether the option is whole, and whether it is read.
    const ROWS: &[(u8, [bool; 7], [bool; 7])] = &[
        (0x00, [true; 7], [false, true, true, true, true, true, true]),
        (0x01, [true; 7], [false, true, true, true, true, true, true]),
        (0x02, [true; 7], [false, true, true, true, true, true, true]),
        (
            0x03,
            [false, false, false, false, true, true, true],
            [false, false, false, false, true, false, false],
        ),
        (
            0x04,
            [false, false, false, false, false, false, true],
            [false; 7],
        ),
        (
            0x05,
            [true; 7],
            [false, true, false, false, false, false, false],
        ),
        (0x06, [true; 7], [false, true, true, true, true, true, true]),
        (0xff, [true; 7], [false, true, true, true, true, true, true]),
    ];
    for &(kind, whole, reads) in ROWS {
        for units in 0..7 {
            check_units(&rt, kind, units, whole[units], reads[units]);
        }
        holds_of(&rt, kind, !is_read(&[kind, 1, 0, 0, 0, 0, 0]));
    }
}

#[test]
fn an_option_of_the_most_units(rt: HostRuntime) {
    let mut octets = [0; 2041];
    octets[..2].copy_from_slice(&[0x0e, 0xff]);
    const ROWS: &[(usize, bool)] = &[(2039, false), (2040, true), (2041, true)];
    for &(len, is_whole) in ROWS {
        let checked = NdiscOption::new_checked(&octets[..len]);
        same_of(&rt, len, checked.is_ok(), is_whole);
    }
}

#[test]
fn redirected_packets_that_are_not_whole(rt: HostRuntime) {
    // A byte of the option that is another, and whether the option is still read.
    const ROWS: &[(usize, u8, bool)] = &[
        (8, 0x6f, true),
        (8, 0x40, false),
        (13, 0x08, true),
        (13, 0x09, false),
        (12, 0x01, false),
        (7, 0xff, true),
    ];
    for &(at, value, reads) in ROWS {
        let mut bytes = REDIRECTED;
        bytes[at] = value;
        same_of(&rt, (at, value), is_read(&bytes), reads);
    }
}
