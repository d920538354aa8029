use crate::messages::{Row, check};
use dns_fields::kind::Kind;
use dns_fields::unread::Unread;
use record_wire::{NameRefusal, TextRefusal};

#[test]
fn netbios_names(rt: HostRuntime) {
    const ROWS: &[Row] = &[
        // The name of RFC 1002 section 4.1, asked for by a broadcast.
        (
            b"\x12\x34\x01\x10\0\x01\0\0\0\0\0\0\
            \x20EGFCEFEECACACACACACACACACACACACA\x07NETBIOS\x03COM\0\0\x20\0\x01",
            Kind::Nbns,
            "  transaction_id=4660\n  flags=rd,b\n  opcode=0 (QUERY)\n  rcode=0 (NOERROR)\n\
             \x20 question=FRED<20>.NETBIOS.COM IN NB\n",
            ",\"transaction_id\":4660,\"flags\":[\"rd\",\"b\"],\
             \"opcode\":0,\"opcode_name\":\"QUERY\",\"rcode\":0,\"rcode_name\":\"NOERROR\",\"entries\":[\
             {\"section\":\"question\",\"name\":\"FRED<20>.NETBIOS.COM\",\"class\":\"IN\",\"type\":\"NB\"}]",
            None,
        ),
        // The name of RFC 1001 section 14.1, as it is spelled there; the asterisk of a request for a node's status; a
        // letter too many, and one behind P.
        (
            b"\0\x01\0\0\0\x04\0\0\0\0\0\0\
            \x20FEGHGFCAEOGFHEECEJEPFDCAGOGBGNGF\x05SCOPE\x02ID\x03COM\0\0\x20\0\x01\
            \x20CKAAAAAAAAAAAAAAAAAAAAAAAAAAAAAA\0\0\x21\0\x01\
            \x21EGFCEFEECACACACACACACACACACACACAA\0\0\x0a\0\x01\
            \x20EGFCEFEECACACACACACACACACACACACQ\0\0\x22\0\x01",
            Kind::Nbns,
            "  transaction_id=1\n  flags=-\n  opcode=0 (QUERY)\n  rcode=0 (NOERROR)\n\
             \x20 question=Tge\\032NetBIOS\\032nam<65>.SCOPE.ID.COM IN NB\n\
             \x20 question=*\\000\\000\\000\\000\\000\\000\\000\\000\\000\\000\\000\\000\\000\\000<00> IN NBSTAT\n\
             \x20 question=EGFCEFEECACACACACACACACACACACACAA. IN NULL\n\
             \x20 question=EGFCEFEECACACACACACACACACACACACQ. IN TYPE34\n",
            ",\"transaction_id\":1,\"flags\":[],\
             \"opcode\":0,\"opcode_name\":\"QUERY\",\"rcode\":0,\"rcode_name\":\"NOERROR\",\"entries\":[\
             {\"section\":\"question\",\"name\":\"Tge\\\\032NetBIOS\\\\032nam<65>.SCOPE.ID.COM\",\
             \"class\":\"IN\",\"type\":\"NB\"},\
             {\"section\":\"question\",\
             \"name\":\"*\\\\000\\\\000\\\\000\\\\000\\\\000\\\\000\\\\000\\\\000\\\\000\\\\000\\\\000\
             \\\\000\\\\000\\\\000<00>\",\"class\":\"IN\",\"type\":\"NBSTAT\"},\
             {\"section\":\"question\",\"name\":\"EGFCEFEECACACACACACACACACACACACAA.\",\
             \"class\":\"IN\",\"type\":\"NULL\"},\
             {\"section\":\"question\",\"name\":\"EGFCEFEECACACACACACACACACACACACQ.\",\
             \"class\":\"IN\",\"type\":\"TYPE34\"}]",
            None,
        ),
    ];
    check(&rt, rt.alloc(), ROWS);
}

#[test]
fn addresses_of_netbios_names(rt: HostRuntime) {
    const ROWS: &[Row] = &[
        // A registration, a group's answer with two addresses, and a request to wait.
        (
            b"\0\x02\x29\x10\0\x01\0\0\0\0\0\x01\
            \x20EGFCEFEECACACACACACACACACACACACA\0\0\x20\0\x01\
            \xc0\x0c\0\x20\0\x01\0\x04\x93\xe0\0\x06\x60\0\xc0\0\x02\x07",
            Kind::Nbns,
            "  transaction_id=2\n  flags=rd,b\n  opcode=5 (REGISTRATION)\n  rcode=0 (NOERROR)\n\
             \x20 question=FRED<20> IN NB\n\
             \x20 additional=FRED<20> 300000 IN NB unique h-node 192.0.2.7\n",
            ",\"transaction_id\":2,\"flags\":[\"rd\",\"b\"],\
             \"opcode\":5,\"opcode_name\":\"REGISTRATION\",\"rcode\":0,\"rcode_name\":\"NOERROR\",\"entries\":[\
             {\"section\":\"question\",\"name\":\"FRED<20>\",\"class\":\"IN\",\"type\":\"NB\"},\
             {\"section\":\"additional\",\"name\":\"FRED<20>\",\"ttl\":300000,\"class\":\"IN\",\"type\":\"NB\",\
             \"data\":[\"unique h-node 192.0.2.7\"]}]",
            None,
        ),
        (
            b"\0\x03\x85\x80\0\0\0\x01\0\0\0\0\
            \x20EGFCEFEECACACACACACACACACACACACA\0\0\x20\0\x01\0\0\0\x3c\0\x0c\
            \x80\0\xc0\0\x02\x07\xa0\0\xc0\0\x02\x08",
            Kind::Nbns,
            "  transaction_id=3\n  flags=qr,aa,rd,ra\n  opcode=0 (QUERY)\n  rcode=0 (NOERROR)\n\
             \x20 answer=FRED<20> 60 IN NB group b-node 192.0.2.7,group p-node 192.0.2.8\n",
            ",\"transaction_id\":3,\"flags\":[\"qr\",\"aa\",\"rd\",\"ra\"],\
             \"opcode\":0,\"opcode_name\":\"QUERY\",\"rcode\":0,\"rcode_name\":\"NOERROR\",\"entries\":[\
             {\"section\":\"answer\",\"name\":\"FRED<20>\",\"ttl\":60,\"class\":\"IN\",\"type\":\"NB\",\
             \"data\":[\"group b-node 192.0.2.7\",\"group p-node 192.0.2.8\"]}]",
            None,
        ),
        (
            b"\0\x03\xbc\0\0\0\0\x01\0\0\0\0\
            \x20EGFCEFEECACACACACACACACACACACACA\0\0\x20\0\x01\0\0\0\x3c\0\x02\x29\x10",
            Kind::Nbns,
            "  transaction_id=3\n  flags=qr,aa\n  opcode=7 (WACK)\n  rcode=0 (NOERROR)\n\
             \x20 answer=FRED<20> 60 IN NB \\# 2 2910\n",
            ",\"transaction_id\":3,\"flags\":[\"qr\",\"aa\"],\
             \"opcode\":7,\"opcode_name\":\"WACK\",\"rcode\":0,\"rcode_name\":\"NOERROR\",\"entries\":[\
             {\"section\":\"answer\",\"name\":\"FRED<20>\",\"ttl\":60,\"class\":\"IN\",\"type\":\"NB\",\
             \"data\":\"\\\\# 2 2910\"}]",
            None,
        ),
        // An address that is cut, and a name that leads to itself in front of a record without one.
        (
            b"\0\x04\xad\x83\0\0\0\x03\0\0\0\0\
            \x20EGFCEFEECACACACACACACACACACACACA\0\0\x20\0\x01\0\0\0\0\0\x08\x20\0\xc0\0\x02\x07\x40\0\
            \xc0\x40\0\x20\0\x01\0\0\0\0\0\0\
            \xc0\x0c\0\x20\0\x01\0\0\0\0\0\0",
            Kind::Nbns,
            "  transaction_id=4\n  flags=qr,aa,rd,ra\n  opcode=5 (REGISTRATION)\n  rcode=3 (NAM_ERR)\n\
             \x20 answer=FRED<20> 0 IN NB unique p-node 192.0.2.7 octets=2000c00002074000 refused=an address is cut\n\
             \x20 answer=none name_octets=c040 ttl=0 class=IN type=NB octets=- \
             refused=the owner: a pointer to place 64 leads nowhere or round\n\
             \x20 answer=FRED<20> 0 IN NB -\n",
            ",\"transaction_id\":4,\"flags\":[\"qr\",\"aa\",\"rd\",\"ra\"],\
             \"opcode\":5,\"opcode_name\":\"REGISTRATION\",\"rcode\":3,\"rcode_name\":\"NAM_ERR\",\"entries\":[\
             {\"section\":\"answer\",\"name\":\"FRED<20>\",\"ttl\":0,\"class\":\"IN\",\"type\":\"NB\",\
             \"data\":[\"unique p-node 192.0.2.7\"],\"octets\":\"2000c00002074000\",\
             \"refused\":\"an address is cut\"},\
             {\"section\":\"answer\",\"name\":null,\"name_octets\":\"c040\",\
             \"ttl\":0,\"class\":\"IN\",\"type\":\"NB\",\"octets\":\"\",\
             \"refused\":\"the owner: a pointer to place 64 leads nowhere or round\"},\
             {\"section\":\"answer\",\"name\":\"FRED<20>\",\"ttl\":0,\"class\":\"IN\",\"type\":\"NB\",\"data\":[]}]",
            Some(Unread::Addresses),
        ),
    ];
    check(&rt, rt.alloc(), ROWS);
}

#[test]
fn status_of_a_node(rt: HostRuntime) {
    const ROWS: &[Row] = &[
        (
            b"\0\x05\x84\0\0\0\0\x01\0\0\0\0\
            \x20CKAAAAAAAAAAAAAAAAAAAAAAAAAAAAAA\0\0\x21\0\x01\0\0\0\0\0\x3b\x03\
            FRED           \0\x44\0\
            WORKGROUP      \x1e\x84\0\
            \x01\x02__MSBROWSE__\x02\x01\x9e\0\
            \0\x0c\x29\x01",
            Kind::Nbns,
            "  transaction_id=5\n  flags=qr,aa\n  opcode=0 (QUERY)\n  rcode=0 (NOERROR)\n\
             \x20 answer=*\\000\\000\\000\\000\\000\\000\\000\\000\\000\\000\\000\\000\\000\\000<00> 0 IN NBSTAT \
             FRED<00> unique m-node active,WORKGROUP<1e> group b-node active,\
             \\001\\002__MSBROWSE__\\002<01> group b-node deregister conflict active permanent \
             statistics=000c2901\n",
            ",\"transaction_id\":5,\"flags\":[\"qr\",\"aa\"],\
             \"opcode\":0,\"opcode_name\":\"QUERY\",\"rcode\":0,\"rcode_name\":\"NOERROR\",\"entries\":[\
             {\"section\":\"answer\",\
             \"name\":\"*\\\\000\\\\000\\\\000\\\\000\\\\000\\\\000\\\\000\\\\000\\\\000\\\\000\\\\000\
             \\\\000\\\\000\\\\000<00>\",\
             \"ttl\":0,\"class\":\"IN\",\"type\":\"NBSTAT\",\
             \"data\":[\"FRED<00> unique m-node active\",\"WORKGROUP<1e> group b-node active\",\
             \"\\\\001\\\\002__MSBROWSE__\\\\002<01> group b-node deregister conflict active permanent\"],\
             \"statistics\":\"000c2901\"}]",
            None,
        ),
        // A second name of which an octet is missing, and data without a number of names.
        (
            b"\0\x05\x84\0\0\0\0\x02\0\0\0\0\
            \0\0\x21\0\x01\0\0\0\0\0\x24\x02\
            FRED           \0\x04\0\
            WORKGROUP      \x1e\x84\
            \0\0\x21\0\x01\0\0\0\0\0\0",
            Kind::Nbns,
            "  transaction_id=5\n  flags=qr,aa\n  opcode=0 (QUERY)\n  rcode=0 (NOERROR)\n\
             \x20 answer=. 0 IN NBSTAT FRED<00> unique b-node active statistics=- \
             octets=0246524544202020202020202020202000040057\
             4f524b47524f55502020202020201e84 refused=the names are cut\n\
             \x20 answer=. 0 IN NBSTAT - statistics=- octets=- refused=the names are cut\n",
            ",\"transaction_id\":5,\"flags\":[\"qr\",\"aa\"],\
             \"opcode\":0,\"opcode_name\":\"QUERY\",\"rcode\":0,\"rcode_name\":\"NOERROR\",\"entries\":[\
             {\"section\":\"answer\",\"name\":\".\",\"ttl\":0,\"class\":\"IN\",\"type\":\"NBSTAT\",\
             \"data\":[\"FRED<00> unique b-node active\"],\"statistics\":\"\",\
             \"octets\":\"0246524544202020202020202020202000040057\
             4f524b47524f55502020202020201e84\",\"refused\":\"the names are cut\"},\
             {\"section\":\"answer\",\"name\":\".\",\"ttl\":0,\"class\":\"IN\",\"type\":\"NBSTAT\",\
             \"data\":[],\"statistics\":\"\",\"octets\":\"\",\"refused\":\"the names are cut\"}]",
            Some(Unread::Names),
        ),
    ];
    check(&rt, rt.alloc(), ROWS);
}
