//! Options of IPv6 and of neighbor discovery.

use super::check;

#[test]
fn hop_by_hop_headers(rt: HostRuntime) {
    const PADS: &str = "Pad1\nPad1\nPad1\nPad1\nPad1\nPad1\nPad1\nPad1\n";
    const ROWS: &[(&str, &str)] = &[
        ("010400000000", "PadN=4\n"),
        ("1100", "Unknown\ntype_=17\nlength=0\ndata=-\n"),
        (
            "c204DEADbeef0100",
            "Unknown\ntype_=194\nlength=4\ndata=deadbeef\nPadN=0\n",
        ),
        ("6300", "Unknown\ntype_=99\nlength=0\ndata=-\n"),
        ("6302aabb", "Unknown\ntype_=99\nlength=2\ndata=aabb\n"),
        ("00", "Pad1\n"),
        ("05020000", "RouterAlert=0\n"),
        ("05020001", "RouterAlert=1\n"),
        ("05020002", "RouterAlert=2\n"),
        ("0502beef", "RouterAlert=48879\n"),
        (
            "000000000502beef",
            "Pad1\nPad1\nPad1\nPad1\nRouterAlert=48879\n",
        ),
        ("00010100010200000100", "Pad1\nPadN=1\nPadN=2\nPadN=0\n"),
        (
            "3a00050200000100",
            "Unknown\ntype_=58\nlength=0\ndata=-\nRouterAlert=0\nPadN=0\n",
        ),
        // Seven options, and the same with an eighth that is cut off.
        (
            "0001010001020000010000110005020001",
            "Pad1\nPadN=1\nPadN=2\nPadN=0\nPad1\nUnknown\ntype_=17\nlength=0\ndata=-\nRouterAlert=1\n",
        ),
        ("0001010001020000010000110005020001010800", "refused\n"),
        // A ninth option is looked at and left out, and a tenth is not looked at.
        ("00000000000000000502beef", PADS),
        ("000000000000000000ff", PADS),
        ("00000000000000000503000000", "refused\n"),
        ("0000000011", "refused\n"),
        ("000000000503000000", "refused\n"),
        ("0000000000ff", "refused\n"),
        ("0101", "refused\n"),
        ("-", "refused\n"),
    ];
    check(&rt, rt.alloc(), "hbh", ROWS);
}

#[test]
fn neighbor_options(rt: HostRuntime) {
    const ROWS: &[(&str, &str)] = &[
        ("05010000000005dc", "Mtu=1500\n"),
        ("05010000000005dcffff", "Mtu=1500\n"),
        (
            "030440c000000384000003e800000000fe800000000000000000000000000001",
            "PrefixInformation\nprefix_len=64\nflags=192\nvalid_lifetime=900000\n\
                 preferred_lifetime=1000000\nprefix=fe800000000000000000000000000001\n",
        ),
        (
            "01020102030405060700000000000000",
            "SourceLinkLayerAddr=0102030405060700\n",
        ),
        ("0201525400123456", "TargetLinkLayerAddr=525400123456\n"),
        (
            "04070000000000006000000000041140fe800000000000000000000000000001fe8000000\
                 00000000000000000000002aabbccdd00000000",
            "RedirectedHeader\nheader.src_addr=fe800000000000000000000000000001\n\
                 header.dst_addr=fe800000000000000000000000000002\nheader.next_header=17\n\
                 header.payload_len=4\nheader.hop_limit=64\ndata=aabbccdd\n",
        ),
        (
            "0e01aabbccddeeff",
            "Unknown\ntype_=14\nlength=1\ndata=aabbccddeeff\n",
        ),
        ("0301000000000000", "refused\n"),
        ("0100525400123456", "refused\n"),
        ("05020000000000000000000000000000", "refused\n"),
        ("050100000000dc", "refused\n"),
        ("0101000000000000", "SourceLinkLayerAddr=000000000000\n"),
        ("0401000000000000", "refused\n"),
        (
            "0e01000000000000",
            "Unknown\ntype_=14\nlength=1\ndata=000000000000\n",
        ),
        ("0e00000000000000", "refused\n"),
        ("-", "refused\n"),
    ];
    check(&rt, rt.alloc(), "ndopt", ROWS);
}
