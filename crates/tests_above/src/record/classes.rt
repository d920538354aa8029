//! Classes by their mnemonics.

use crate::testing::{prints, same_of};
use record_wire::classes::{ANY, CH, ClassName, HS, IN, NONE, mnemonic};

#[test]
fn classes_of_the_registry(rt: HostRuntime) {
    const ROWS: &[(u16, &str, u16)] = &[
        (IN, "IN", 1),
        (CH, "CH", 3),
        (HS, "HS", 4),
        (NONE, "NONE", 254),
        (ANY, "ANY", 255),
        (2, "CLASS2", 2),
        (65535, "CLASS65535", 65535),
    ];
    for &(class, mnemonic, number) in ROWS {
        prints(&rt, rt.alloc(), &ClassName(class), mnemonic);
        same_of(&rt, mnemonic, class, number);
    }
}

#[test]
fn mnemonics_of_classes(rt: HostRuntime) {
    same_of(&rt, 254, mnemonic(254), Some("NONE"));
    same_of(&rt, 253, mnemonic(253), None);
}
