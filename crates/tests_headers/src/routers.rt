//! The routers of advertisements in turn.

use crate::testing::{same, same_of};
use header_wire::Message;
use header_wire::icmpv4::{Router, RouterAdvertisement, Routers};
use std::test::Fail;
use wirebase::Ipv4Address;

// Two routers, the second of which is no default router.
const TWO: [u8; 16] = [
    0xc0, 0x00, 0x02, 0x01, 0x00, 0x00, 0x00, 0x00, 0xc0, 0x00, 0x02, 0x02, 0x80, 0x00, 0x00, 0x00,
];

#[test]
fn routers_in_turn(rt: HostRuntime) -> Result<(), Fail> {
    let first = Router {
        addr: Ipv4Address::new(192, 0, 2, 1),
        preference: 0,
    };
    let second = Router {
        addr: Ipv4Address::new(192, 0, 2, 2),
        preference: -2_147_483_648,
    };
    let routers = Routers::new(&TWO);
    same(&rt, routers.len(), 2);
    let mut left = routers.iter();
    same(&rt, left.next(), Some(first));
    let mut copy = left.clone()?;
    same(&rt, copy.next(), Some(second));
    same(&rt, left.next(), Some(second));
    same(&rt, left.next(), None);
    Ok(())
}

#[test]
fn an_advertisement_of_routers(rt: HostRuntime) {
    let advertisement = Message::RouterAdvertisement(RouterAdvertisement {
        lifetime: 1800,
        routers: Routers::new(&TWO),
    });
    let mut octets = [0xff; 24];
    if advertisement.buffer_len() == 24 {
        advertisement.emit_into(&mut octets);
    }
    let wanted = [
        0x09, 0x00, 0xe9, 0xf0, 0x02, 0x02, 0x07, 0x08, 0xc0, 0x00, 0x02, 0x01, 0x00, 0x00, 0x00,
        0x00, 0xc0, 0x00, 0x02, 0x02, 0x80, 0x00, 0x00, 0x00,
    ];
    same(&rt, octets, wanted);
    same(&rt, Message::parse(&octets), Ok(advertisement));
}

// Of an entry of three words, the last is not looked at.
#[test]
fn a_router_of_a_longer_entry(rt: HostRuntime) {
    let octets = [
        0x09, 0x00, 0x8f, 0x55, 0x01, 0x03, 0x07, 0x08, 0xc0, 0x00, 0x02, 0x01, 0xff, 0xff, 0xff,
        0xff, 0xde, 0xad, 0xbe, 0xef,
    ];
    match Message::parse(&octets) {
        Ok(Message::RouterAdvertisement(advertisement)) => {
            let router = Router {
                addr: Ipv4Address::new(192, 0, 2, 1),
                preference: -1,
            };
            let mut left = advertisement.routers.iter();
            same(&rt, left.next(), Some(router));
            same(&rt, left.next(), None);
        }
        read => same(&rt, Some(read), None),
    }
}

// Fewer octets than a router has are none.
#[test]
fn how_many_routers_octets_have(rt: HostRuntime) {
    for len in 0..=16 {
        let routers = Routers::new(&TWO[..len]);
        same_of(&rt, len, routers.len(), len / 8);
        same_of(&rt, len, routers, Routers::new(&TWO[..len / 8 * 8]));
    }
}
