//! Messages of ICMPv6 and of multicast listener discovery.

use super::{check, check_line, check_lines, check_with_data, repeated};

/// A message from one address of the link to another.
pub const BETWEEN: &str = "icmp6 fe800000000000000000000000000001 fe800000000000000000000000000002";

#[test]
fn echoes_of_icmpv6(rt: HostRuntime) {
    const ROWS: &[(&str, &str)] = &[
        (
            "800019b31234abcdaa0000ff",
            "EchoRequest\nident=4660\nseq_no=43981\ndata=aa0000ff\n",
        ),
        (
            "800019B31234ABCDAA0000FF",
            "EchoRequest\nident=4660\nseq_no=43981\ndata=aa0000ff\n",
        ),
        ("810081a900070008", "EchoReply\nident=7\nseq_no=8\ndata=-\n"),
        // A code, a checksum that is none, and types that are not read.
        ("800119b21234abcdaa0000ff", "refused\n"),
        ("800019b41234abcdaa0000ff", "refused\n"),
        ("9b0067b800000000", "refused\n"),
        ("8a0078b800000000", "refused\n"),
        ("84007eb800000000", "refused\n"),
        ("-", "refused\n"),
    ];
    check(&rt, rt.alloc(), BETWEEN, ROWS);
}

#[test]
fn echoes_between_other_addresses(rt: HostRuntime) {
    const ROWS: &[(&str, &str)] = &[
        (
            "icmp6 FE800000000000000000000000000001 FE800000000000000000000000000002 \
             800019b31234abcdaa0000ff",
            "EchoRequest\nident=4660\nseq_no=43981\ndata=aa0000ff\n",
        ),
        (
            "icmp6 fe800000000000000000000000000002 fe800000000000000000000000000001 \
             800019b31234abcdaa0000ff",
            "EchoRequest\nident=4660\nseq_no=43981\ndata=aa0000ff\n",
        ),
        (
            "icmp6 fe800000000000000000000000000001 fe800000000000000000000000000001 \
             800019b31234abcdaa0000ff",
            "refused\n",
        ),
    ];
    check_lines(&rt, rt.alloc(), ROWS);
}

// A datagram between the addresses, and what a message that quotes it prints of it.
const QUOTE: &str = "60000000000c1140fe800000000000000000000000000001fe8000000000000000000000000000\
    02bf000035000c124daa0000ff";

const QUOTED: &str = "header.src_addr=fe800000000000000000000000000001\n\
    header.dst_addr=fe800000000000000000000000000002\nheader.next_header=17\n\
    header.payload_len=12\nheader.hop_limit=64\ndata=bf000035000c124daa0000ff\n";

#[test]
fn errors_of_icmpv6(rt: HostRuntime) {
    const ROWS: &[(&str, &str)] = &[
        ("010016a500000000", "DstUnreachable\nreason=0\n"),
        ("010116a400000000", "DstUnreachable\nreason=1\n"),
        ("010416a100000000", "DstUnreachable\nreason=4\n"),
        ("0107169e00000000", "DstUnreachable\nreason=7\n"),
        ("02000fc9000005dc", "PktTooBig\nmtu=1500\n"),
        ("030014a500000000", "TimeExceeded\nreason=0\n"),
        ("030114a400000000", "TimeExceeded\nreason=1\n"),
        ("0400137d00000028", "ParamProblem\nreason=0\npointer=40\n"),
        ("0401137c00000028", "ParamProblem\nreason=1\npointer=40\n"),
        ("0402137b00000028", "ParamProblem\nreason=2\npointer=40\n"),
        ("0403137a00000028", "ParamProblem\nreason=3\npointer=40\n"),
    ];
    check_with_data(&rt, rt.alloc(), BETWEEN, ROWS, QUOTE, QUOTED);
}

#[test]
fn a_packet_too_big_with_a_code(rt: HostRuntime) {
    const ROWS: &[(&str, &str)] = &[("02010fc8000005dc", "refused\n")];
    check_with_data(&rt, rt.alloc(), BETWEEN, ROWS, QUOTE, "");
}

#[test]
fn errors_of_icmpv6_by_their_quote(rt: HostRuntime) {
    const ROWS: &[(&str, &str)] = &[
        // A header alone, and a header less an octet.
        (
            "0301913e0000000060000000000c1140fe800000000000000000000000000001fe8000000000000000\
             00000000000002",
            "TimeExceeded\nreason=1\nheader.src_addr=fe800000000000000000000000000001\n\
             header.dst_addr=fe800000000000000000000000000002\nheader.next_header=17\n\
             header.payload_len=12\nheader.hop_limit=64\ndata=-\n",
        ),
        (
            "02008c66000005dc60000000000c1140fe800000000000000000000000000001fe8000000000000000\
             000000000000",
            "refused\n",
        ),
    ];
    check(&rt, rt.alloc(), BETWEEN, ROWS);
}

// As much of a datagram of 9,999 bytes as an error has room for.
#[test]
fn a_packet_too_big_of_1240_bytes(rt: HostRuntime) {
    let header = "02000c3f00000500\
        60000000270f1140fe800000000000000000000000000001fe800000000000000000000000000002";
    let line = [(BETWEEN, 1), (" ", 1), (header, 1), ("aa", 1_192)];
    let line = repeated(&rt, rt.alloc(), &line);
    let want = "PktTooBig\nmtu=1280\nheader.src_addr=fe800000000000000000000000000001\n\
        header.dst_addr=fe800000000000000000000000000002\nheader.next_header=17\n\
        header.payload_len=9999\nheader.hop_limit=64\ndata=";
    let want = repeated(&rt, rt.alloc(), &[(want, 1), ("aa", 1_192), ("\n", 1)]);
    check_line(&rt, rt.alloc(), line.as_str(), want.as_str());
}

#[test]
fn messages_of_mld(rt: HostRuntime) {
    const ROWS: &[(&str, &str)] = &[
        (
            "8f0000000000000104000000ff020000000000000000000000000002",
            "Report\nnr_mcast_addr_rcrds=1\ndata=04000000ff020000000000000000000000000002\n",
        ),
        (
            "8f00000000000000",
            "Report\nnr_mcast_addr_rcrds=0\ndata=-\n",
        ),
        (
            "8200737404000000ff0200000000000000000000000000010a120001ff02000000000000000000000000\
             0002",
            "Query\nmax_resp_code=1024\nmcast_addr=ff020000000000000000000000000001\n\
             s_flag=true\nqrv=2\nqqic=18\nnum_srcs=1\ndata=ff020000000000000000000000000002\n",
        ),
        (
            "820000000001000000000000000000000000000000000000f77d0000",
            "Query\nmax_resp_code=1\nmcast_addr=00000000000000000000000000000000\n\
             s_flag=false\nqrv=7\nqqic=125\nnum_srcs=0\ndata=-\n",
        ),
        (
            "8200737404000000ff020000000000000000000000000001",
            "refused\n",
        ),
        (
            "8300000004000000ff0200000000000000000000000000010a120000",
            "refused\n",
        ),
        ("-", "refused\n"),
    ];
    check(&rt, rt.alloc(), "mld", ROWS);
}

#[test]
fn messages_of_mld_inside_icmpv6(rt: HostRuntime) {
    const ROWS: &[(&str, &str)] = &[
        (
            "8200737404000000ff0200000000000000000000000000010a120001ff02000000000000000000000000\
             0002",
            "Query\nmax_resp_code=1024\nmcast_addr=ff020000000000000000000000000001\n\
             s_flag=true\nqrv=2\nqqic=18\nnum_srcs=1\ndata=ff020000000000000000000000000002\n",
        ),
        (
            "8f0073850000000101000001ff020000000000000000000000000001ff02000000000000000000000000\
             0002",
            "Report\nnr_mcast_addr_rcrds=1\ndata=01000001ff020000000000000000000000000001ff02000\
             0000000000000000000000002\n",
        ),
        (
            "8f0073860000000101000001ff020000000000000000000000000001ff02000000000000000000000000\
             0002",
            "refused\n",
        ),
    ];
    let between = "icmp6 ff020000000000000000000000000001 ff020000000000000000000000000002";
    check(&rt, rt.alloc(), between, ROWS);
}
