use super::{bare, five_servers, with_options};
use crate::testing::{prints, prints_each, takes_writes};
use bitflags::Flags as _;
use dhcp_wire::dhcpv4::{DhcpOption, Flags, MessageType, OpCode};
use wirebase::{EthernetAddress, Ipv4Address};

#[test]
fn a_message_that_says_nothing_else(rt: HostRuntime) {
    let text = "DHCPv4 DISCOVER xid=0 secs=0 client_hardware_address=00:00:00:00:00:00 \
        client_ip=0.0.0.0 your_ip=0.0.0.0 server_ip=0.0.0.0 relay_agent_ip=0.0.0.0 broadcast=false";
    prints(&rt, rt.alloc(), &bare(MessageType::Discover), text);
}

#[test]
fn each_field_by_its_name(rt: HostRuntime) {
    let mut repr = bare(MessageType::Ack);
    repr.transaction_id = 4_294_967_295;
    repr.secs = 65_535;
    repr.client_hardware_address = EthernetAddress([2, 0, 0, 0, 0, 0xfe]);
    repr.client_ip = Ipv4Address::new(10, 0, 0, 1);
    repr.your_ip = Ipv4Address::new(10, 0, 0, 2);
    repr.server_ip = Ipv4Address::new(10, 0, 0, 3);
    repr.router = Some(Ipv4Address::new(10, 0, 0, 4));
    repr.subnet_mask = Some(Ipv4Address::new(255, 255, 255, 0));
    repr.relay_agent_ip = Ipv4Address::new(10, 0, 0, 5);
    repr.broadcast = true;
    repr.requested_ip = Some(Ipv4Address::new(10, 0, 0, 6));
    repr.client_identifier = Some(EthernetAddress([2, 0, 0, 0, 0, 1]));
    repr.server_identifier = Some(Ipv4Address::new(10, 0, 0, 7));
    let text = "DHCPv4 ACK xid=4294967295 secs=65535 client_hardware_address=02:00:00:00:00:fe \
        client_ip=10.0.0.1 your_ip=10.0.0.2 server_ip=10.0.0.3 router=10.0.0.4 \
        subnet_mask=255.255.255.0 relay_agent_ip=10.0.0.5 broadcast=true requested_ip=10.0.0.6 \
        client_identifier=02:00:00:00:00:01 server_identifier=10.0.0.7";
    prints(&rt, rt.alloc(), &repr, text);
}

#[test]
fn lists_and_numbers_by_their_names(rt: HostRuntime) {
    const NAME: DhcpOption<'static> = DhcpOption {
        kind: 12,
        data: b"a",
    };
    let mut repr = with_options(MessageType::Request, &[NAME, NAME]);
    repr.parameter_request_list = Some(&[1, 3, 42]);
    repr.dns_servers = Some(five_servers());
    repr.max_size = Some(1500);
    repr.lease_duration = Some(3600);
    repr.renew_duration = Some(1800);
    repr.rebind_duration = Some(3150);
    let text = "DHCPv4 REQUEST xid=0 secs=0 client_hardware_address=00:00:00:00:00:00 \
        client_ip=0.0.0.0 your_ip=0.0.0.0 server_ip=0.0.0.0 relay_agent_ip=0.0.0.0 broadcast=false \
        parameter_request_list=1,3,42 dns_servers=10.0.0.1,10.0.0.2,10.0.0.3,10.0.0.4,10.0.0.5 \
        max_size=1500 lease_duration=3600 renew_duration=1800 rebind_duration=3150 \
        additional_options=2";
    prints(&rt, rt.alloc(), &repr, text);
}

#[test]
fn empty_lists_print_their_names(rt: HostRuntime) {
    let mut repr = bare(MessageType::Inform);
    repr.parameter_request_list = Some(&[]);
    let text = "DHCPv4 INFORM xid=0 secs=0 client_hardware_address=00:00:00:00:00:00 \
        client_ip=0.0.0.0 your_ip=0.0.0.0 server_ip=0.0.0.0 relay_agent_ip=0.0.0.0 broadcast=false \
        parameter_request_list=";
    prints(&rt, rt.alloc(), &repr, text);
}

#[test]
fn types_operations_and_options(rt: HostRuntime) {
    const TYPES: &[(u8, &str)] = &[
        (0, "unknown 0"),
        (1, "DISCOVER"),
        (2, "OFFER"),
        (3, "REQUEST"),
        (4, "DECLINE"),
        (5, "ACK"),
        (6, "NAK"),
        (7, "RELEASE"),
        (8, "INFORM"),
        (34, "unknown 34"),
    ];
    const OPERATIONS: &[(u8, &str)] = &[(1, "BOOTREQUEST"), (2, "BOOTREPLY"), (255, "unknown 255")];
    const OPTION: DhcpOption<'static> = DhcpOption {
        kind: 53,
        data: &[1],
    };
    prints_each::<MessageType>(&rt, rt.alloc(), TYPES);
    prints_each::<OpCode>(&rt, rt.alloc(), OPERATIONS);
    prints(&rt, rt.alloc(), &OPTION, "message-type=DISCOVER");
    prints(&rt, rt.alloc(), &Flags::BROADCAST, "broadcast");
    prints(
        &rt,
        rt.alloc(),
        &Flags::from_bits_retain(0xffff),
        "broadcast",
    );
    prints(&rt, rt.alloc(), &Flags::from_bits_retain(0x7fff), "-");
}

#[test]
fn printing_fails_only_with_its_writer(rt: HostRuntime) {
    let mut repr = bare(MessageType::Nak);
    takes_writes(&rt, &repr, 28);
    repr.max_size = Some(576);
    repr.parameter_request_list = Some(&[1, 3, 42]);
    takes_writes(&rt, &repr, 38);
}
