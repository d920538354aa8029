// Clients of DHCP, and their leases.

use crate::captured::{ACK_OPTIONS, DISCOVER_OPTIONS};
use crate::made::{counts, front, put, shows, to_host, to_server, udp};
use message_fields::Service;
use packet_fields::Form;
use packet_stats::Stats;

// The octets of a message, with the header of UDP before it.
const MESSAGE_LEN: usize = 328;

// A datagram with a message of an operation, to or from the client 02:00:00:00:00:07, which gives it this address, and
// has these octets from the magic cookie on.
fn message(op: u8, address: &[u8], options: &[u8]) -> [u8; MESSAGE_LEN] {
    let mut octets = [0; MESSAGE_LEN];
    put(&mut octets, 0, &[0, 67, 0, 68, 1, 0x48, 0, 0, op, 1, 6]);
    put(&mut octets, 24, address);
    put(&mut octets, 36, &[2, 0, 0, 0, 0, 7]);
    put(&mut octets, 244, options);
    octets
}

// A client that asks twice, and gets an address twice.
#[test]
fn client_and_its_lease(rt: HostRuntime) {
    let mut stats = Stats::new(rt.alloc());
    let asks = message(1, &[], DISCOVER_OPTIONS);
    let answers = message(2, &[192, 0, 2, 50], ACK_OPTIONS);
    for _ in 0..2 {
        let message = udp(Service::Dhcp, to_server(), &asks);
        counts(&rt, rt.alloc(), &mut stats, &message, &to_server(), None);
        let message = udp(Service::Dhcp, to_host(), &answers);
        counts(&rt, rt.alloc(), &mut stats, &message, &to_host(), Some(1));
    }
    shows(
        &rt,
        rt.alloc(),
        Form::Lines,
        &mut stats,
        "  client=02:00:00:00:00:07 count=2\n  \
        lease=192.0.2.50 client=02:00:00:00:00:07 time=3600s count=2\n",
    );
    shows(
        &rt,
        rt.alloc(),
        Form::Json,
        &mut stats,
        ",\"questions\":[],\"rcodes\":[],\"servers\":[],\
        \"clients\":[{\"kind\":\"client\",\"hardware\":\"02:00:00:00:00:07\",\"count\":2}],\
        \"leases\":[{\"kind\":\"lease\",\"addr\":\"192.0.2.50\",\"client\":\"02:00:00:00:00:07\",\
        \"time\":3600000,\"count\":2}],\
        \"members\":[],\"sources\":[],\"neighbors\":[],\"routers\":[],\"prefixes\":[]",
    );
}

// An ACK without a time, and other replies that lease nothing: an OFFER, the ACK of an INFORM, which gives no address,
// and one without the magic cookie. A request needs no options.
#[test]
fn replies_that_lease_nothing(rt: HostRuntime) {
    let mut stats = Stats::new(rt.alloc());
    let mut options = [0; 16];
    put(&mut options, 0, &[0x63, 0x82, 0x53, 0x63, 53, 1, 5, 0xff]);
    let untimed = message(2, &[192, 0, 2, 9], &options);
    let informs = message(2, &[], &options);
    let plain = message(2, &[192, 0, 2, 9], &options[1..]);
    let asks = message(1, &[], &[]);
    options[6] = 2;
    let offers = message(2, &[192, 0, 2, 9], &options);
    for octets in [&untimed, &informs, &plain, &asks, &offers] {
        let message = udp(Service::Dhcp, to_host(), octets);
        counts(&rt, rt.alloc(), &mut stats, &message, &to_host(), None);
    }
    let message = udp(Service::Dhcp, to_server(), front(&asks, 51));
    counts(&rt, rt.alloc(), &mut stats, &message, &to_server(), None);
    shows(
        &rt,
        rt.alloc(),
        Form::Lines,
        &mut stats,
        "  client=02:00:00:00:00:07 count=1\n  lease=192.0.2.9 client=02:00:00:00:00:07 count=1\n",
    );
}
