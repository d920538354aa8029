use crate::testing::{ascend, prints, same};
use bitflags::Flags as _;
use opt_wire::ndiscoption::{PrefixInfoFlags, Type};

#[test]
fn types_and_their_numbers(rt: HostRuntime) {
    const ROWS: &[(u8, Type, &str)] = &[
        (1, Type::SourceLinkLayerAddr, "source link-layer address"),
        (2, Type::TargetLinkLayerAddr, "target link-layer address"),
        (3, Type::PrefixInformation, "prefix information"),
        (4, Type::RedirectedHeader, "redirected header"),
        (5, Type::Mtu, "mtu"),
        (0, Type::Unknown(0), "0"),
        (14, Type::Unknown(14), "14"),
    ];
    for &(number, kind, text) in ROWS {
        same(&rt, Type::from(number), kind);
        same(&rt, u8::from(kind), number);
        prints(&rt, rt.alloc(), &kind, text);
    }
}

#[test]
fn order_of_types(rt: HostRuntime) {
    const TYPES: &[Type] = &[
        Type::SourceLinkLayerAddr,
        Type::TargetLinkLayerAddr,
        Type::PrefixInformation,
        Type::RedirectedHeader,
        Type::Mtu,
        Type::Unknown(0),
        Type::Unknown(14),
    ];
    ascend(&rt, TYPES);
}

#[test]
fn sets_of_flags(rt: HostRuntime) {
    let both = PrefixInfoFlags::ON_LINK | PrefixInfoFlags::ADDRCONF;
    let others = [
        PrefixInfoFlags::all(),
        PrefixInfoFlags::from_bits_truncate(0xc1),
    ];
    same(&rt, others, [both; 2]);
    let bits = [
        both.bits(),
        PrefixInfoFlags::empty().bits(),
        PrefixInfoFlags::from_bits_retain(0xc1).bits(),
    ];
    same(&rt, bits, [0xc0, 0, 0xc1]);
    same(&rt, PrefixInfoFlags::from_bits(0xc1), None);
}

#[test]
fn flags_in_words(rt: HostRuntime) {
    const ROWS: &[(u8, &str)] = &[
        (0x00, "-"),
        (0x3f, "-"),
        (0x40, "addrconf"),
        (0x80, "on_link"),
        (0xff, "on_link,addrconf"),
    ];
    for &(bits, text) in ROWS {
        let flags = PrefixInfoFlags::from_bits_retain(bits);
        prints(&rt, rt.alloc(), &flags, text);
    }
}

#[test]
fn flags_are_joined_and_parted(rt: HostRuntime) {
    let both = PrefixInfoFlags::all();
    let others = [
        !PrefixInfoFlags::ON_LINK,
        both - PrefixInfoFlags::ON_LINK,
        both ^ PrefixInfoFlags::ON_LINK,
    ];
    same(&rt, others, [PrefixInfoFlags::ADDRCONF; 3]);
    same(
        &rt,
        both & PrefixInfoFlags::ON_LINK,
        PrefixInfoFlags::ON_LINK,
    );
    same(&rt, both.contains(PrefixInfoFlags::ON_LINK), true);
    let share = PrefixInfoFlags::ON_LINK.intersects(PrefixInfoFlags::ADDRCONF);
    same(&rt, share, false);
}

#[test]
fn flags_are_put_in_and_taken_out(rt: HostRuntime) {
    let both = PrefixInfoFlags::all();
    let mut flags = PrefixInfoFlags::empty();
    flags.insert(PrefixInfoFlags::ON_LINK);
    flags.toggle(both);
    same(&rt, flags, PrefixInfoFlags::ADDRCONF);
    flags.remove(both);
    same(&rt, flags.is_empty(), true);
}
