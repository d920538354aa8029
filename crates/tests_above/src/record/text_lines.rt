//! What records of each type print.

use super::text::{EXAMPLE, MESSAGE, check, record};
use dns_wire::dns::{Packet, Type};
use record_wire::{classes, types};

#[test]
fn lines_by_type(rt: HostRuntime) {
    let alloc = rt.alloc();
    let packet = Packet::new_unchecked(MESSAGE);
    let rows: [(Type, u16, &[u8], &str); 22] = [
        (
            types::A,
            1,
            b"\xc0\0\x02\x01",
            "example.com. 3600 IN A 192.0.2.1",
        ),
        (
            types::AAAA,
            1,
            b"\x20\x01\x0d\xb8\0\0\0\0\0\0\0\0\0\0\0\x01",
            "example.com. 3600 IN AAAA 2001:db8::1",
        ),
        (
            types::CNAME,
            1,
            b"\x03www\xc0\x0c",
            "example.com. 3600 IN CNAME www.example.com.",
        ),
        (types::NS, 1, b"\0", "example.com. 3600 IN NS ."),
        (
            types::PTR,
            1,
            b"\x01a\xc0\x14",
            "example.com. 3600 IN PTR a.com.",
        ),
        (
            types::MX,
            1,
            b"\0\x0a\x04mail\xc0\x0c",
            "example.com. 3600 IN MX 10 mail.example.com.",
        ),
        (
            types::SRV,
            1,
            b"\0\x01\0\x02\x13\xc4\x03sip\xc0\x0c",
            "example.com. 3600 IN SRV 1 2 5060 sip.example.com.",
        ),
        (
            types::SOA,
            1,
            b"\x02ns\xc0\x0c\x05a.b@c\xc0\x0c\0\0\0\x01\0\0\0\x02\0\0\0\x03\0\0\0\x04\0\0\0\x05",
            "example.com. 3600 IN SOA ns.example.com. a\\.b\\@c.example.com. 1 2 3 4 5",
        ),
        (
            types::TXT,
            1,
            b"\x01a\0\x02b ",
            "example.com. 3600 IN TXT \"a\" \"\" \"b \"",
        ),
        (
            types::TXT,
            classes::CH,
            b"\x07\"\\\x1f ~\x7f\xff",
            "example.com. 3600 CH TXT \"\\\"\\\\\\031 ~\\127\\255\"",
        ),
        (
            types::A,
            classes::CH,
            b"\x01\xab",
            "example.com. 3600 CH A \\# 2 01ab",
        ),
        (
            Type::from(4711),
            4712,
            b"",
            "example.com. 3600 CLASS4712 TYPE4711 \\# 0",
        ),
        (
            types::MD,
            1,
            b"\x02md\xc0\x0c",
            "example.com. 3600 IN MD md.example.com.",
        ),
        (
            types::MF,
            1,
            b"\x02mf\xc0\x0c",
            "example.com. 3600 IN MF mf.example.com.",
        ),
        (
            types::MB,
            1,
            b"\x02mb\xc0\x0c",
            "example.com. 3600 IN MB mb.example.com.",
        ),
        (
            types::MG,
            1,
            b"\x02mg\xc0\x0c",
            "example.com. 3600 IN MG mg.example.com.",
        ),
        (
            types::MR,
            1,
            b"\x02mr\xc0\x0c",
            "example.com. 3600 IN MR mr.example.com.",
        ),
        (
            types::DNAME,
            1,
            b"\x02dn\xc0\x0c",
            "example.com. 3600 IN DNAME dn.example.com.",
        ),
        (
            types::CAA,
            1,
            b"\0\x0f\xf0",
            "example.com. 3600 IN CAA \\# 3 000ff0",
        ),
        (
            types::MX,
            classes::ANY,
            b"",
            "example.com. 3600 ANY MX \\# 0",
        ),
        (
            types::NSEC,
            classes::ANY,
            b"",
            "example.com. 3600 ANY NSEC \\# 0",
        ),
        (
            types::A,
            classes::NONE,
            b"",
            "example.com. 3600 NONE A \\# 0",
        ),
    ];
    for (type_, class, octets, text) in rows {
        let read = record(EXAMPLE, type_, class, octets).text(&packet);
        check(&rt, alloc, read, text);
    }
}

// Those of NAPTR are from RFC 3403 sections 6.1 and 6.2, those of NXT and NSEC from RFC 2535 section 5.4 and RFC 4034
// section 4.3, and the signatures from RFC 4648 sections 9 and 10.
#[test]
fn lines_of_fields(rt: HostRuntime) {
    let alloc = rt.alloc();
    let packet = Packet::new_unchecked(MESSAGE);
    let rows: [(Type, &[u8], &str); 23] = [
        (
            types::MINFO,
            b"\x05admin\xc0\x0c\x06errors\xc0\x14",
            "example.com. 3600 IN MINFO admin.example.com. errors.com.",
        ),
        (
            types::RP,
            b"\x04r.o@\xc0\x0c\0",
            "example.com. 3600 IN RP r\\.o\\@.example.com. .",
        ),
        (
            types::AFSDB,
            b"\0\x01\x03afs\0",
            "example.com. 3600 IN AFSDB 1 afs.",
        ),
        (
            types::RT,
            b"\0\x02\x05relay\xc0\x14",
            "example.com. 3600 IN RT 2 relay.com.",
        ),
        (
            types::PX,
            b"\0\x0a\x03net\xc0\x0c\x04x400\xc0\x14",
            "example.com. 3600 IN PX 10 net.example.com. x400.com.",
        ),
        (
            types::KX,
            b"\xff\xfe\xc0\x0c",
            "example.com. 3600 IN KX 65534 example.com.",
        ),
        (
            types::NAPTR,
            b"\0\x64\0\x32\x01a\x0dz3950+N2L+N2C\0\x09cidserver\xc0\x0c",
            "example.com. 3600 IN NAPTR 100 50 \"a\" \"z3950+N2L+N2C\" \"\" cidserver.example.com.",
        ),
        (
            types::NAPTR,
            b"\0\x66\0\x0a\x01u\x08smtp+E2U\x21!^.*$!mailto:information@foo.se!i\0",
            "example.com. 3600 IN NAPTR 102 10 \"u\" \"smtp+E2U\" \"!^.*$!mailto:information@foo.se!i\" .",
        ),
        (
            types::NAPTR,
            b"\0\0\xff\xff\0\0\x04\\1\"\xff\0",
            "example.com. 3600 IN NAPTR 0 65535 \"\" \"\" \"\\\\1\\\"\\255\" .",
        ),
        (
            types::SIG,
            b"\0\x01\x05\x03\0\0\x0e\x10\x3b\x9a\xca\0\x3a\xde\x68\xb1\x53\xbb\x01k\xc0\x0cfoo",
            "example.com. 3600 IN SIG A 5 3 3600 1000000000 987654321 21435 k.example.com. Zm9v",
        ),
        (
            types::SIG,
            b"\0\x01\x05\x03\0\0\x0e\x10\x3b\x9a\xca\0\x3a\xde\x68\xb1\x53\xbb\0foob",
            "example.com. 3600 IN SIG A 5 3 3600 1000000000 987654321 21435 . Zm9vYg==",
        ),
        (
            types::SIG,
            b"\0\x01\x05\x03\0\0\x0e\x10\x3b\x9a\xca\0\x3a\xde\x68\xb1\x53\xbb\0fooba",
            "example.com. 3600 IN SIG A 5 3 3600 1000000000 987654321 21435 . Zm9vYmE=",
        ),
        (
            types::SIG,
            b"\0\x01\x05\x03\0\0\x0e\x10\x3b\x9a\xca\0\x3a\xde\x68\xb1\x53\xbb\0\x14\xfb\x9c\x03\xd9\x7e",
            "example.com. 3600 IN SIG A 5 3 3600 1000000000 987654321 21435 . FPucA9l+",
        ),
        (
            types::SIG,
            b"\0\x01\x05\x03\0\0\x0e\x10\x3b\x9a\xca\0\x3a\xde\x68\xb1\x53\xbb\0\xff",
            "example.com. 3600 IN SIG A 5 3 3600 1000000000 987654321 21435 . /w==",
        ),
        (
            types::SIG,
            b"\0\0\x08\0\0\0\0\0\xff\xff\xff\xff\x80\0\0\0\0\x01\xc0\x0c",
            "example.com. 3600 IN SIG TYPE0 8 0 0 4294967295 2147483648 1 example.com. ",
        ),
        (
            types::NXT,
            b"\x06medium\xc0\x0c\x40\x01\0\x82",
            "example.com. 3600 IN NXT medium.example.com. A MX SIG NXT",
        ),
        (
            types::NXT,
            b"\xc0\x0c",
            "example.com. 3600 IN NXT example.com.",
        ),
        (
            types::NXT,
            b"\0\x7f\0\0\0\0\0\0\0\0\0\0\0\0\0\0\x01",
            "example.com. 3600 IN NXT . A NS MD MF CNAME SOA MB TYPE127",
        ),
        (
            types::NSEC,
            b"\xc0\x0c\0\x05\x40\0\x80\x08\x40",
            "example.com. 3600 IN NSEC example.com. A TXT AAAA SRV",
        ),
        (
            types::NSEC,
            b"\x04host\xc0\x0c\0\x06\x40\x01\0\0\0\x03\x04\x1b\0\0\0\0\0\0\0\0\0\0\0\0\0\0\0\0\0\0\0\0\0\0\0\0\0\0\x20",
            "example.com. 3600 IN NSEC host.example.com. A MX RRSIG NSEC TYPE1234",
        ),
        (
            types::NSEC,
            b"\x01b\xc0\x14\0\x01\x40\x01\x01\x40",
            "example.com. 3600 IN NSEC b.com. A CAA",
        ),
        (
            types::NSEC,
            b"\0\xff\x20\0\0\0\0\0\0\0\0\0\0\0\0\0\0\0\0\0\0\0\0\0\0\0\0\0\0\0\0\0\0\0\x01",
            "example.com. 3600 IN NSEC . TYPE65535",
        ),
        (types::NSEC, b"\0", "example.com. 3600 IN NSEC ."),
    ];
    for (type_, octets, text) in rows {
        let read = record(EXAMPLE, type_, 1, octets).text(&packet);
        check(&rt, alloc, read, text);
    }
}
