use crate::testing::{prints, same, same_of};
use wirebase::Hardware;

#[test]
fn hardware_by_its_number(rt: HostRuntime) {
    const ROWS: &[(u16, Hardware)] = &[
        (0, Hardware::Unknown(0)),
        (1, Hardware::Ethernet),
        (2, Hardware::Unknown(2)),
        (0xffff, Hardware::Unknown(0xffff)),
    ];
    for &(number, hardware) in ROWS {
        same_of(&rt, number, Hardware::from(number), hardware);
        same_of(&rt, hardware, u16::from(hardware), number);
    }
    same(&rt, Hardware::Ethernet < Hardware::Unknown(0), true);
    same(&rt, Hardware::Unknown(0) < Hardware::Unknown(2), true);
}

#[test]
fn hardware_by_its_name(rt: HostRuntime) {
    prints(&rt, rt.alloc(), &Hardware::Ethernet, "Ethernet");
    prints(&rt, rt.alloc(), &Hardware::Unknown(32), "32");
}
