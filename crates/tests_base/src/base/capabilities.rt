use crate::testing::{same, same_of};
use wirebase::{Checksum, ChecksumCapabilities};

#[test]
fn directions_of_each_case(rt: HostRuntime) {
    const ROWS: &[(Checksum, [bool; 2])] = &[
        (Checksum::Both, [true, true]),
        (Checksum::Rx, [true, false]),
        (Checksum::Tx, [false, true]),
        (Checksum::None, [false, false]),
    ];
    for &(checksum, wanted) in ROWS {
        same_of(&rt, checksum, [checksum.rx(), checksum.tx()], wanted);
    }
    same(&rt, Checksum::default(), Checksum::Both);
}

// The checksum of each protocol.
fn checksums(capabilities: &ChecksumCapabilities) -> [Checksum; 5] {
    [
        capabilities.ipv4,
        capabilities.udp,
        capabilities.tcp,
        capabilities.icmpv4,
        capabilities.icmpv6,
    ]
}

#[test]
fn capabilities_of_all_and_of_none(rt: HostRuntime) {
    let all = ChecksumCapabilities::default();
    same(&rt, checksums(&all), [Checksum::Both; 5]);
    let none = ChecksumCapabilities::ignored();
    same(&rt, checksums(&none), [Checksum::None; 5]);
    same(&rt, all != none, true);
}
