use super::{MTU, PREFIX, UNKNOWN, here};
use crate::testing::{prints, same, takes_writes};
use bitflags::Flags as _;
use opt_wire::ndiscoption::{NdiscOption, PrefixInfoFlags, Type};
use wirebase::{Duration, RawHardwareAddress};

#[test]
fn fields_of_a_prefix_are_written(rt: HostRuntime) {
    let mut bytes = [0xff; 32];
    let mut view = NdiscOption::new_unchecked(&mut bytes[..]);
    view.set_option_type(Type::PrefixInformation);
    view.set_data_len(4);
    view.set_prefix_len(64);
    view.set_prefix_flags(PrefixInfoFlags::all());
    view.set_valid_lifetime(Duration::from_secs(900));
    view.set_preferred_lifetime(Duration::from_secs(1_000));
    view.clear_prefix_reserved();
    view.set_prefix(here());
    same(&rt, bytes, PREFIX);
}

#[test]
fn fields_of_a_prefix_are_read(rt: HostRuntime) {
    let view = NdiscOption::new_unchecked(PREFIX.as_slice());
    same(&rt, view.option_type(), Type::PrefixInformation);
    same(&rt, [view.data_len(), view.prefix_len()], [4, 64]);
    same(&rt, view.prefix_flags(), PrefixInfoFlags::all());
    let times = [view.valid_lifetime(), view.preferred_lifetime()];
    same(
        &rt,
        times,
        [Duration::from_secs(900), Duration::from_secs(1_000)],
    );
    same(&rt, view.prefix(), here());
}

#[test]
fn fields_are_read_by_their_places_in_any_option(rt: HostRuntime) {
    let view = NdiscOption::new_unchecked(PREFIX.as_slice());
    same(&rt, view.data(), &PREFIX[2..]);
    same(&rt, view.mtu(), 900);
    same(&rt, view.link_layer_addr().as_bytes(), &PREFIX[2..10]);
}

#[test]
fn an_mtu_is_written(rt: HostRuntime) {
    let mut bytes = [0xff; 8];
    let mut view = NdiscOption::new_unchecked(&mut bytes[..]);
    view.clear_redirected_reserved();
    view.set_mtu(0x0102_0304);
    same(
        &rt,
        view,
        NdiscOption::new_unchecked(&mut [0xff, 0xff, 0, 0, 1, 2, 3, 4][..]),
    );
}

#[test]
fn an_address_is_written(rt: HostRuntime) {
    let mut bytes = [0xff, 0xff, 0, 0, 1, 2, 3, 4];
    let mut view = NdiscOption::new_unchecked(&mut bytes[..]);
    view.set_data_len(1);
    view.set_link_layer_addr(RawHardwareAddress::from_bytes(&[1, 2, 3]));
    same(&rt, view.into_inner().len(), 8);
    same(
        &rt,
        bytes.as_slice(),
        [0xff, 0x01, 1, 2, 3, 2, 3, 4].as_slice(),
    );
}

#[test]
fn data_is_lent_for_writing(rt: HostRuntime) {
    let mut octets = MTU;
    let mut view = NdiscOption::new_unchecked(octets.as_mut_slice());
    same(&rt, &*view.data_mut(), &MTU[2..]);
}

#[test]
fn views_in_words(rt: HostRuntime) {
    const ROWS: &[(&[u8], &str)] = &[
        (
            &[0x05, 0x01, 0, 0, 0, 0, 0x05, 0xdc],
            "NDISC Option: MTU mtu=1500",
        ),
        (
            &PREFIX,
            "NDISC Option: PrefixInformation prefix=fe80::1/64 flags=on_link,addrconf \
             valid_lifetime=900.000s preferred_lifetime=1000.000s",
        ),
        (
            &[0x05, 0x02, 0, 0, 0, 0, 0x05, 0xdc],
            "NDISC Option (wire::Error)",
        ),
        (&[], "NDISC Option (wire::Error)"),
    ];
    for &(bytes, text) in ROWS {
        prints(&rt, rt.alloc(), &NdiscOption::new_unchecked(bytes), text);
    }
}

#[test]
fn printing_fails_only_with_its_writer(rt: HostRuntime) {
    const ROWS: &[(&[u8], u32)] = &[(&MTU, 2), (&PREFIX, 20), (&UNKNOWN, 6), (&[], 3)];
    for &(bytes, calls) in ROWS {
        takes_writes(&rt, &NdiscOption::new_unchecked(bytes), calls);
    }
    takes_writes(&rt, &Type::Mtu, 1);
}
