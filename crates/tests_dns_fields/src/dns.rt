use crate::messages::{Row, check};
use crate::testing::prints;
use dns_fields::kind::Kind;
use dns_fields::unread::Unread;
use record_wire::{
    DataRefusal, NameRefusal, OptionRefusal, PartRefusal, Refusal, Section, TextRefusal,
};

#[test]
fn questions_addresses_and_names(rt: HostRuntime) {
    const ROWS: &[Row] = &[
        (
            b"\x12\x34\x81\x80\0\x01\0\x03\0\0\0\0\
            \x03www\x07example\x03com\0\0\xff\0\x01\
            \xc0\x0c\0\x05\0\x01\0\0\x01\x2c\0\x02\xc0\x10\
            \xc0\x10\0\x01\0\x01\0\0\x01\x2c\0\x04\xc0\0\x02\x01\
            \xc0\x10\0\x1c\0\x01\0\0\0\0\0\x10\
            \x20\x01\x0d\xb8\0\0\0\0\0\0\0\0\0\0\0\x01",
            Kind::Dns,
            "  transaction_id=4660\n  flags=qr,rd,ra\n  opcode=0 (QUERY)\n  rcode=0 (NOERROR)\n\
             \x20 question=www.example.com. IN ANY\n\
             \x20 answer=www.example.com. 300 IN CNAME example.com.\n\
             \x20 answer=example.com. 300 IN A 192.0.2.1\n\
             \x20 answer=example.com. 0 IN AAAA 2001:db8::1\n",
            ",\"transaction_id\":4660,\"flags\":[\"qr\",\"rd\",\"ra\"],\
             \"opcode\":0,\"opcode_name\":\"QUERY\",\"rcode\":0,\"rcode_name\":\"NOERROR\",\"entries\":[\
             {\"section\":\"question\",\"name\":\"www.example.com.\",\"class\":\"IN\",\"type\":\"ANY\"},\
             {\"section\":\"answer\",\"name\":\"www.example.com.\",\"ttl\":300,\"class\":\"IN\",\
             \"type\":\"CNAME\",\"data\":\"example.com.\"},\
             {\"section\":\"answer\",\"name\":\"example.com.\",\"ttl\":300,\"class\":\"IN\",\
             \"type\":\"A\",\"data\":\"192.0.2.1\"},\
             {\"section\":\"answer\",\"name\":\"example.com.\",\"ttl\":0,\"class\":\"IN\",\
             \"type\":\"AAAA\",\"data\":\"2001:db8::1\"}]",
            None,
        ),
        // All bits of a header: a conflict and a tentative answer are of LLMNR alone.
        (
            b"\xff\xff\xff\xff\0\0\0\0\0\0\0\0",
            Kind::Llmnr,
            "  transaction_id=65535\n  flags=qr,c,tc,t,z1,z2,z3,z4\n  opcode=15\n  rcode=15\n",
            ",\"transaction_id\":65535,\
             \"flags\":[\"qr\",\"c\",\"tc\",\"t\",\"z1\",\"z2\",\"z3\",\"z4\"],\
             \"opcode\":15,\"rcode\":15,\"entries\":[]",
            None,
        ),
        (
            b"\xff\xff\xff\xff\0\0\0\0\0\0\0\0",
            Kind::Dns,
            "  transaction_id=65535\n  flags=qr,aa,tc,rd,ra,z,ad,cd\n  opcode=15\n  rcode=15\n",
            ",\"transaction_id\":65535,\
             \"flags\":[\"qr\",\"aa\",\"tc\",\"rd\",\"ra\",\"z\",\"ad\",\"cd\"],\
             \"opcode\":15,\"rcode\":15,\"entries\":[]",
            None,
        ),
        (
            b"\0\0\xff\xff\0\0\0\0\0\0\0\0",
            Kind::Mdns,
            "  transaction_id=0\n  flags=qr,aa,tc,rd,ra,z,ad,cd\n  opcode=15\n  rcode=15\n",
            ",\"transaction_id\":0,\
             \"flags\":[\"qr\",\"aa\",\"tc\",\"rd\",\"ra\",\"z\",\"ad\",\"cd\"],\
             \"opcode\":15,\"rcode\":15,\"entries\":[]",
            None,
        ),
        (
            b"\0\x01\x24\x43\0\0\0\0\0\0\0\0",
            Kind::Dns,
            "  transaction_id=1\n  flags=aa,z\n  opcode=4 (NOTIFY)\n  rcode=3 (NXDOMAIN)\n",
            ",\"transaction_id\":1,\"flags\":[\"aa\",\"z\"],\"opcode\":4,\"opcode_name\":\"NOTIFY\",\
             \"rcode\":3,\"rcode_name\":\"NXDOMAIN\",\"entries\":[]",
            None,
        ),
    ];
    check(&rt, rt.alloc(), ROWS);
}

// Sections 2.3 to 2.5 of RFC 2136: a zone, a prerequisite that a set of records exists, a set and a record that are
// deleted, and a record that is added.
#[test]
fn updates(rt: HostRuntime) {
    const ROWS: &[Row] = &[(
        b"\x12\x34\x28\0\0\x01\0\x01\0\x03\0\0\
        \x07example\x03com\0\0\x06\0\x01\
        \x04host\xc0\x0c\0\x01\0\xff\0\0\0\0\0\0\
        \xc0\x1d\0\x1c\0\xff\0\0\0\0\0\0\
        \xc0\x1d\0\x01\0\xfe\0\0\0\0\0\x04\xc0\0\x02\x01\
        \xc0\x1d\0\x01\0\x01\0\0\x01\x2c\0\x04\xc0\0\x02\x02",
        Kind::Dns,
        "  transaction_id=4660\n  flags=-\n  opcode=5 (UPDATE)\n  rcode=0 (NOERROR)\n\
         \x20 question=example.com. IN SOA\n\
         \x20 answer=host.example.com. 0 ANY A \\# 0\n\
         \x20 authority=host.example.com. 0 ANY AAAA \\# 0\n\
         \x20 authority=host.example.com. 0 NONE A \\# 4 c0000201\n\
         \x20 authority=host.example.com. 300 IN A 192.0.2.2\n",
        ",\"transaction_id\":4660,\"flags\":[],\"opcode\":5,\"opcode_name\":\"UPDATE\",\
         \"rcode\":0,\"rcode_name\":\"NOERROR\",\"entries\":[\
         {\"section\":\"question\",\"name\":\"example.com.\",\"class\":\"IN\",\"type\":\"SOA\"},\
         {\"section\":\"answer\",\"name\":\"host.example.com.\",\"ttl\":0,\"class\":\"ANY\",\
         \"type\":\"A\",\"data\":\"\\\\# 0\"},\
         {\"section\":\"authority\",\"name\":\"host.example.com.\",\"ttl\":0,\"class\":\"ANY\",\
         \"type\":\"AAAA\",\"data\":\"\\\\# 0\"},\
         {\"section\":\"authority\",\"name\":\"host.example.com.\",\"ttl\":0,\"class\":\"NONE\",\
         \"type\":\"A\",\"data\":\"\\\\# 4 c0000201\"},\
         {\"section\":\"authority\",\"name\":\"host.example.com.\",\"ttl\":300,\"class\":\"IN\",\
         \"type\":\"A\",\"data\":\"192.0.2.2\"}]",
        None,
    )];
    check(&rt, rt.alloc(), ROWS);
}

#[test]
fn top_bit_of_a_class(rt: HostRuntime) {
    const ROWS: &[Row] = &[
        (
            b"\0\0\x84\0\0\x01\0\x02\0\0\0\0\
            \x04_ipp\x04_tcp\x05local\0\0\x0c\x80\x01\
            \x07printer\xc0\x16\0\x01\x80\x01\0\0\0\x78\0\x04\xc0\0\x02\x07\
            \xc0\x21\0\x10\0\x01\0\0\0\x78\0\x06\x05a \"b\\",
            Kind::Mdns,
            "  transaction_id=0\n  flags=qr,aa\n  opcode=0 (QUERY)\n  rcode=0 (NOERROR)\n\
             \x20 question=_ipp._tcp.local. IN PTR unicast_response=true\n\
             \x20 answer=printer.local. 120 IN A 192.0.2.7 cache_flush=true\n\
             \x20 answer=printer.local. 120 IN TXT \"a \\\"b\\\\\"\n",
            ",\"transaction_id\":0,\"flags\":[\"qr\",\"aa\"],\"opcode\":0,\"opcode_name\":\"QUERY\",\
             \"rcode\":0,\"rcode_name\":\"NOERROR\",\"entries\":[\
             {\"section\":\"question\",\"name\":\"_ipp._tcp.local.\",\"class\":\"IN\",\"type\":\"PTR\",\
             \"unicast_response\":true},\
             {\"section\":\"answer\",\"name\":\"printer.local.\",\"ttl\":120,\"class\":\"IN\",\"type\":\"A\",\
             \"data\":\"192.0.2.7\",\"cache_flush\":true},\
             {\"section\":\"answer\",\"name\":\"printer.local.\",\"ttl\":120,\"class\":\"IN\",\
             \"type\":\"TXT\",\"data\":\"\\\"a \\\\\\\"b\\\\\\\\\\\"\"}]",
            None,
        ),
        // In DNS it is a bit of the class.
        (
            b"\0\x01\0\0\0\x01\0\x01\0\0\0\0\0\0\x01\x80\x01\
            \0\0\x01\x80\x01\0\0\0\0\0\x04\xc0\0\x02\x07",
            Kind::Dns,
            "  transaction_id=1\n  flags=-\n  opcode=0 (QUERY)\n  rcode=0 (NOERROR)\n\
             \x20 question=. CLASS32769 A\n\
             \x20 answer=. 0 CLASS32769 A \\# 4 c0000207\n",
            ",\"transaction_id\":1,\"flags\":[],\"opcode\":0,\"opcode_name\":\"QUERY\",\
             \"rcode\":0,\"rcode_name\":\"NOERROR\",\"entries\":[\
             {\"section\":\"question\",\"name\":\".\",\"class\":\"CLASS32769\",\"type\":\"A\"},\
             {\"section\":\"answer\",\"name\":\".\",\"ttl\":0,\"class\":\"CLASS32769\",\"type\":\"A\",\
             \"data\":\"\\\\# 4 c0000207\"}]",
            None,
        ),
        // In OPT it is one of the size, in multicast DNS too.
        (
            b"\0\0\0\0\0\0\0\0\0\0\0\x01\0\0\x29\x80\x01\0\0\0\0\0\0",
            Kind::Mdns,
            "  transaction_id=0\n  flags=-\n  opcode=0 (QUERY)\n  rcode=0 (NOERROR)\n\
             \x20 additional=. OPT udp_size=32769 extended_rcode=0 version=0 flags=- options=-\n",
            ",\"transaction_id\":0,\"flags\":[],\"opcode\":0,\"opcode_name\":\"QUERY\",\
             \"rcode\":0,\"rcode_name\":\"NOERROR\",\"entries\":[\
             {\"section\":\"additional\",\"name\":\".\",\"type\":\"OPT\",\"udp_size\":32769,\
             \"extended_rcode\":0,\"version\":0,\"flags\":[],\"options\":[]}]",
            None,
        ),
    ];
    check(&rt, rt.alloc(), ROWS);
}

#[test]
fn options_of_opt(rt: HostRuntime) {
    const ROWS: &[Row] = &[
        (
            b"\0\x01\x84\0\0\0\0\0\0\0\0\x02\
            \0\0\x29\x04\xd0\0\0\x80\0\0\x11\0\x0a\0\x08\x01\x23\x45\x67\x89\xab\xcd\xef\xff\xff\0\x01\x2a\
            \0\0\x29\x02\0\x01\x02\x00\x03\0\0",
            Kind::Dns,
            "  transaction_id=1\n  flags=qr,aa\n  opcode=0 (QUERY)\n  rcode=0 (NOERROR)\n\
             \x20 additional=. OPT udp_size=1232 extended_rcode=0 version=0 flags=do \
             options=cookie:0123456789abcdef,65535:2a\n\
             \x20 additional=. OPT udp_size=512 extended_rcode=1 version=2 flags=- options=- \
             reserved_flags=3\n",
            ",\"transaction_id\":1,\"flags\":[\"qr\",\"aa\"],\"opcode\":0,\"opcode_name\":\"QUERY\",\
             \"rcode\":0,\"rcode_name\":\"NOERROR\",\"entries\":[\
             {\"section\":\"additional\",\"name\":\".\",\"type\":\"OPT\",\"udp_size\":1232,\
             \"extended_rcode\":0,\"version\":0,\"flags\":[\"do\"],\
             \"options\":[\"cookie:0123456789abcdef\",\"65535:2a\"]},\
             {\"section\":\"additional\",\"name\":\".\",\"type\":\"OPT\",\"udp_size\":512,\
             \"extended_rcode\":1,\"version\":2,\"flags\":[],\"options\":[],\"reserved_flags\":3}]",
            None,
        ),
        // An option of one byte more than there are, and a record behind it.
        (
            b"\0\x01\0\0\0\0\0\0\0\0\0\x02\0\0\x29\x02\0\0\0\0\0\0\x09\0\x03\0\0\0\x0a\0\x02\x2a\
            \0\0\x01\0\x01\0\0\0\0\0\x04\x0a\0\0\x02",
            Kind::Dns,
            "  transaction_id=1\n  flags=-\n  opcode=0 (QUERY)\n  rcode=0 (NOERROR)\n\
             \x20 additional=. OPT udp_size=512 extended_rcode=0 version=0 flags=- options=nsid: \
             octets=00030000000a00022a refused=the options: the data of the option is cut\n\
             \x20 additional=. 0 IN A 10.0.0.2\n",
            ",\"transaction_id\":1,\"flags\":[],\"opcode\":0,\"opcode_name\":\"QUERY\",\
             \"rcode\":0,\"rcode_name\":\"NOERROR\",\"entries\":[\
             {\"section\":\"additional\",\"name\":\".\",\"type\":\"OPT\",\"udp_size\":512,\
             \"extended_rcode\":0,\"version\":0,\"flags\":[],\"options\":[\"nsid:\"],\
             \"octets\":\"00030000000a00022a\",\"refused\":\"the options: the data of the option is cut\"},\
             {\"section\":\"additional\",\"name\":\".\",\"ttl\":0,\"class\":\"IN\",\"type\":\"A\",\
             \"data\":\"10.0.0.2\"}]",
            Some(Unread::Option(OptionRefusal::Data)),
        ),
    ];
    check(&rt, rt.alloc(), ROWS);
}

#[test]
fn entries_that_do_not_read_hide_none_behind_them(rt: HostRuntime) {
    const ROWS: &[Row] = &[
        // An address of three bytes between two records, and a name that leads to itself in a question before them.
        (
            b"\0\x01\0\0\0\x01\0\x03\0\0\0\0\xc0\x0c\0\x01\0\x01\
            \x02ns\0\0\x01\0\x01\0\0\0\x3c\0\x04\xc0\0\x02\x01\
            \xc0\x12\0\x01\0\x01\0\0\0\x05\0\x03\x0a\0\0\
            \xc0\x12\0\x02\0\x01\0\0\0\x3c\0\x02\xc0\x12",
            Kind::Dns,
            "  transaction_id=1\n  flags=-\n  opcode=0 (QUERY)\n  rcode=0 (NOERROR)\n\
             \x20 question=none name_octets=c00c class=IN type=A refused=a pointer to place 12 leads nowhere or round\n\
             \x20 answer=ns. 60 IN A 192.0.2.1\n\
             \x20 answer=ns. ttl=5 class=IN type=A octets=0a0000 refused=the data: the address has other than 4 bytes\n\
             \x20 answer=ns. 60 IN NS ns.\n",
            ",\"transaction_id\":1,\"flags\":[],\"opcode\":0,\"opcode_name\":\"QUERY\",\
             \"rcode\":0,\"rcode_name\":\"NOERROR\",\"entries\":[\
             {\"section\":\"question\",\"name\":null,\"name_octets\":\"c00c\",\
             \"class\":\"IN\",\"type\":\"A\",\"refused\":\"a pointer to place 12 leads nowhere or round\"},\
             {\"section\":\"answer\",\"name\":\"ns.\",\"ttl\":60,\"class\":\"IN\",\"type\":\"A\",\
             \"data\":\"192.0.2.1\"},\
             {\"section\":\"answer\",\"name\":\"ns.\",\"ttl\":5,\
             \"class\":\"IN\",\"type\":\"A\",\"octets\":\"0a0000\",\
             \"refused\":\"the data: the address has other than 4 bytes\"},\
             {\"section\":\"answer\",\"name\":\"ns.\",\"ttl\":60,\"class\":\"IN\",\"type\":\"NS\",\
             \"data\":\"ns.\"}]",
            Some(Unread::Question(NameRefusal::Pointer(12))),
        ),
        // A name in data that leads to itself, and a record whose data end before their length: the last entry.
        (
            b"\0\x01\0\0\0\0\0\x02\0\0\0\0\0\0\x05\0\x01\0\0\0\0\0\x02\xc0\x17\
            \0\0\x01\0\x01\0\0\0\0\0\x04\x0a\0\0",
            Kind::Dns,
            "  transaction_id=1\n  flags=-\n  opcode=0 (QUERY)\n  rcode=0 (NOERROR)\n\
             \x20 answer=. ttl=0 class=IN type=CNAME octets=c017 \
             refused=a name in the data: a pointer to place 23 leads nowhere or round\n\
             \x20 answer=none octets=00000100010000000000040a0000 refused=the data is cut\n",
            ",\"transaction_id\":1,\"flags\":[],\"opcode\":0,\"opcode_name\":\"QUERY\",\
             \"rcode\":0,\"rcode_name\":\"NOERROR\",\"entries\":[\
             {\"section\":\"answer\",\"name\":\".\",\"ttl\":0,\
             \"class\":\"IN\",\"type\":\"CNAME\",\"octets\":\"c017\",\
             \"refused\":\"a name in the data: a pointer to place 23 leads nowhere or round\"},\
             {\"section\":\"answer\",\"name\":null,\
             \"octets\":\"00000100010000000000040a0000\",\"refused\":\"the data is cut\"}]",
            Some(Unread::Record(TextRefusal::DataName(NameRefusal::Pointer(23)))),
        ),
        // Names of OPT and of another record that lead to themselves.
        (
            b"\0\x01\0\0\0\0\0\0\0\0\0\x02\xc0\x0c\0\x29\x02\0\0\0\0\0\0\x01\0\
            \xc0\x19\0\x01\x80\x01\0\0\0\0\0\0",
            Kind::Mdns,
            "  transaction_id=1\n  flags=-\n  opcode=0 (QUERY)\n  rcode=0 (NOERROR)\n\
             \x20 additional=none name_octets=c00c ttl=0 class=CLASS512 type=OPT octets=00 \
             refused=the owner: a pointer to place 12 leads nowhere or round\n\
             \x20 additional=none name_octets=c019 ttl=0 class=IN type=A octets=- cache_flush=true \
             refused=the owner: a pointer to place 25 leads nowhere or round\n",
            ",\"transaction_id\":1,\"flags\":[],\"opcode\":0,\"opcode_name\":\"QUERY\",\
             \"rcode\":0,\"rcode_name\":\"NOERROR\",\"entries\":[\
             {\"section\":\"additional\",\"name\":null,\"name_octets\":\"c00c\",\
             \"ttl\":0,\"class\":\"CLASS512\",\"type\":\"OPT\",\"octets\":\"00\",\
             \"refused\":\"the owner: a pointer to place 12 leads nowhere or round\"},\
             {\"section\":\"additional\",\"name\":null,\"name_octets\":\"c019\",\
             \"ttl\":0,\"class\":\"IN\",\"type\":\"A\",\"octets\":\"\",\"cache_flush\":true,\
             \"refused\":\"the owner: a pointer to place 25 leads nowhere or round\"}]",
            Some(Unread::Record(TextRefusal::Owner(NameRefusal::Pointer(12)))),
        ),
        // A question of which one byte of the class is missing, and too few bytes for a header.
        (
            b"\0\x01\0\0\0\x01\0\0\0\0\0\0\0\0\x01\0",
            Kind::Dns,
            "  transaction_id=1\n  flags=-\n  opcode=0 (QUERY)\n  rcode=0 (NOERROR)\n\
             \x20 question=none octets=00000100 refused=the fields behind the name are cut\n",
            ",\"transaction_id\":1,\"flags\":[],\"opcode\":0,\"opcode_name\":\"QUERY\",\
             \"rcode\":0,\"rcode_name\":\"NOERROR\",\"entries\":[\
             {\"section\":\"question\",\"name\":null,\"octets\":\"00000100\",\
             \"refused\":\"the fields behind the name are cut\"}]",
            Some(Unread::Entry(Section::Question, Refusal::Fields)),
        ),
        (
            b"\0\x01\0\0\0\0\0\0\0\0\0",
            Kind::Dns,
            "  refused=fewer than 12 bytes\n  octets=0001000000000000000000\n",
            ",\"refused\":\"fewer than 12 bytes\",\"octets\":\"0001000000000000000000\"",
            Some(Unread::Header),
        ),
    ];
    check(&rt, rt.alloc(), ROWS);
}

#[test]
fn inverse_queries(rt: HostRuntime) {
    const ROWS: &[Row] = &[
        // The query of RFC 1035 section 6.4.1.
        (
            b"\x03\xe5\x08\0\0\0\0\x01\0\0\0\0\0\0\x01\0\x01\0\0\0\0\0\x04\x0a\x01\0\x34",
            Kind::Dns,
            "  transaction_id=997\n  flags=-\n  opcode=1 (IQUERY)\n  rcode=0 (NOERROR)\n\
             \x20 answer=. 0 IN A 10.1.0.52\n",
            ",\"transaction_id\":997,\"flags\":[],\"opcode\":1,\"opcode_name\":\"IQUERY\",\
             \"rcode\":0,\"rcode_name\":\"NOERROR\",\"entries\":[\
             {\"section\":\"answer\",\"name\":\".\",\"ttl\":0,\"class\":\"IN\",\"type\":\"A\",\
             \"data\":\"10.1.0.52\"}]",
            None,
        ),
        // An answer without data, and a record without data that is none.
        (
            b"\x03\xe5\x09\x80\0\0\0\x01\0\0\0\x01\0\0\x01\0\x01\0\0\0\0\0\0\
            \0\0\x10\0\x01\0\0\0\0\0\0",
            Kind::Dns,
            "  transaction_id=997\n  flags=rd,ra\n  opcode=1 (IQUERY)\n  rcode=0 (NOERROR)\n\
             \x20 answer=. 0 IN A \\# 0\n\
             \x20 additional=. ttl=0 class=IN type=TXT octets=- refused=the data: there is no string\n",
            ",\"transaction_id\":997,\"flags\":[\"rd\",\"ra\"],\"opcode\":1,\"opcode_name\":\"IQUERY\",\
             \"rcode\":0,\"rcode_name\":\"NOERROR\",\"entries\":[\
             {\"section\":\"answer\",\"name\":\".\",\"ttl\":0,\"class\":\"IN\",\"type\":\"A\",\
             \"data\":\"\\\\# 0\"},\
             {\"section\":\"additional\",\"name\":\".\",\"ttl\":0,\"class\":\"IN\",\"type\":\"TXT\",\
             \"octets\":\"\",\"refused\":\"the data: there is no string\"}]",
            Some(Unread::Record(TextRefusal::Data(DataRefusal::NoString))),
        ),
        // Such answers of a name that leads to itself, and of a response.
        (
            b"\x03\xe5\x08\0\0\0\0\x01\0\0\0\0\xc0\x0c\0\x01\0\x01\0\0\0\0\0\0",
            Kind::Dns,
            "  transaction_id=997\n  flags=-\n  opcode=1 (IQUERY)\n  rcode=0 (NOERROR)\n\
             \x20 answer=none name_octets=c00c ttl=0 class=IN type=A octets=- \
             refused=the owner: a pointer to place 12 leads nowhere or round\n",
            ",\"transaction_id\":997,\"flags\":[],\"opcode\":1,\"opcode_name\":\"IQUERY\",\
             \"rcode\":0,\"rcode_name\":\"NOERROR\",\"entries\":[\
             {\"section\":\"answer\",\"name\":null,\"name_octets\":\"c00c\",\
             \"ttl\":0,\"class\":\"IN\",\"type\":\"A\",\"octets\":\"\",\
             \"refused\":\"the owner: a pointer to place 12 leads nowhere or round\"}]",
            Some(Unread::Record(TextRefusal::Owner(NameRefusal::Pointer(12)))),
        ),
        (
            b"\x03\xe5\x88\x04\0\0\0\x01\0\0\0\0\0\0\x01\0\x01\0\0\0\0\0\0",
            Kind::Dns,
            "  transaction_id=997\n  flags=qr\n  opcode=1 (IQUERY)\n  rcode=4 (NOTIMP)\n\
             \x20 answer=. ttl=0 class=IN type=A octets=- refused=the data: the address has other than 4 bytes\n",
            ",\"transaction_id\":997,\"flags\":[\"qr\"],\"opcode\":1,\"opcode_name\":\"IQUERY\",\
             \"rcode\":4,\"rcode_name\":\"NOTIMP\",\"entries\":[\
             {\"section\":\"answer\",\"name\":\".\",\"ttl\":0,\
             \"class\":\"IN\",\"type\":\"A\",\"octets\":\"\",\
             \"refused\":\"the data: the address has other than 4 bytes\"}]",
            Some(Unread::Record(TextRefusal::Data(DataRefusal::Address(4)))),
        ),
    ];
    check(&rt, rt.alloc(), ROWS);
}

#[test]
fn reasons(rt: HostRuntime) {
    const ROWS: &[(Unread, &str)] = &[
        (Unread::Header, "fewer than 12 bytes"),
        (
            Unread::Entry(Section::Answer, Refusal::Data),
            "answer: the data is cut",
        ),
        (
            Unread::Question(NameRefusal::TooLong),
            "question: the name has more than 255 octets",
        ),
        (
            Unread::Record(TextRefusal::Data(DataRefusal::String)),
            "the data: a string is cut",
        ),
        (
            Unread::Option(OptionRefusal::Fields),
            "the options: the code and the length are cut",
        ),
        (Unread::Addresses, "an address is cut"),
        (Unread::Names, "the names are cut"),
    ];
    for (unread, text) in ROWS {
        prints(&rt, rt.alloc(), unread, text);
    }
}
