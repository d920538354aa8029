use crate::testing::{prints, same, same_of, takes_writes};
use wirebase::{EthernetAddress, MAX_HARDWARE_ADDRESS_LEN, RawHardwareAddress};

const ADDRESS: EthernetAddress = EthernetAddress([0x52, 0x54, 0x00, 0x12, 0x34, 0x56]);

#[test]
fn addresses_of_ethernet(rt: HostRuntime) {
    let bytes = [0x52, 0x54, 0x00, 0x12, 0x34, 0x56];
    let address = EthernetAddress::from_bytes(&bytes);
    same(&rt, address, ADDRESS);
    same(&rt, address.as_bytes(), bytes.as_slice());
    let other = EthernetAddress([0x52, 0x54, 0x00, 0x12, 0x34, 0x57]);
    same(&rt, address != other, true);
    prints(&rt, rt.alloc(), &address, "52:54:00:12:34:56");
}

#[test]
fn an_address_of_ethernet_is_one_of_any_hardware(rt: HostRuntime) {
    let raw = RawHardwareAddress::from(ADDRESS);
    same(&rt, raw, RawHardwareAddress::from_bytes(&ADDRESS.0));
    same(&rt, raw.as_bytes(), &ADDRESS.0[..]);
}

#[test]
fn addresses_of_each_length(rt: HostRuntime) {
    let bytes = [1, 2, 3, 4, 5, 6, 7, 8];
    for len in 0..MAX_HARDWARE_ADDRESS_LEN + 1 {
        let address = RawHardwareAddress::from_bytes(&bytes[..len]);
        same(&rt, address.len(), len);
        same_of(&rt, len, address.is_empty(), len == 0);
        same(&rt, address.as_bytes(), &bytes[..len]);
    }
}

#[test]
fn equality_of_addresses(rt: HostRuntime) {
    const ROWS: &[(&[u8], &[u8], bool)] = &[
        (&[1], &[1], true),
        // Zeros behind an address are not a part of it.
        (&[1], &[1, 0], false),
        (&[1], &[2], false),
        (&[], &[0; 8], false),
    ];
    for &(one, other, equal) in ROWS {
        let address = RawHardwareAddress::from_bytes(one);
        let is_equal = address == RawHardwareAddress::from_bytes(other);
        same_of(&rt, (one, other), is_equal, equal);
    }
}

#[test]
fn addresses_in_hexadecimal(rt: HostRuntime) {
    const ROWS: &[(&[u8], &str)] = &[
        (&[], ""),
        (&[0x0a], "0a"),
        (&[0xff, 0x00], "ff:00"),
        (
            &[1, 0x23, 0x45, 0x67, 0x89, 0xab, 0xcd, 0xef],
            "01:23:45:67:89:ab:cd:ef",
        ),
    ];
    for &(bytes, text) in ROWS {
        let address = RawHardwareAddress::from_bytes(bytes);
        prints(&rt, rt.alloc(), &address, text);
    }
}

#[test]
fn printing_an_address_fails_only_with_its_writer(rt: HostRuntime) {
    takes_writes(&rt, &ADDRESS, 11);
    takes_writes(&rt, &RawHardwareAddress::from(ADDRESS), 11);
}
