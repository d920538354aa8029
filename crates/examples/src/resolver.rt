//! A resolver: the query for a name, and the addresses that the response has for it (RFC 1035 section 4).
//!
//! A name is given as it is written in messages: labels of 1 to 63 bytes, each after its length, and byte 0;
//! `record_wire::Name` makes it from text. Names are equal where their labels are, letters of ASCII in either case (RFC
//! 1035 section 2.3.3, RFC 4343).

ghost use Rattle.std.specs.Prelude.{◌≡◌, ◌≤◌, ◌<◌, ◌↔◌, ℕ, List, length, take, drop, IsTrue, IfSome, IsSome};
ghost use Rattle.std.specs.Prelude.{None, IfOk, IsErr};
ghost use Rattle.control_wire.specs.Bytes.{Reaches};
ghost use Rattle.control_wire.specs.DnsNameWalk.{answer_of, ending};
ghost use Rattle.control_wire.specs.DnsPacket.{view_octets, header};
ghost use Rattle.control_wire.specs.DnsRecord.{value_of};
ghost use Rattle.control_wire.specs.DnsRepr.{text as message_text, text_len, IsCanonical, IsQuery};
ghost use Rattle.examples.specs.declared.resolver.AddressRecord.{AddressRecord};
ghost use Rattle.examples.specs.Resolver.{query_for, AreSameName, Asks, Responds, IsResponse, Tells, Search, search_of};
ghost use Rattle.examples.specs.Resolver.{Says, Finds};
ghost use Rattle.examples.specs.private.Parts.{turn_of, GivesLabel};
ghost use Rattle.record_wire.specs.Labels.{wire};
ghost use Rattle.record_wire.specs.NameText.{IsNameText};

use bitflags::Flags as _;
use control_wire::dns::{Flags, Opcode, Packet, Question, Rcode, Record, RecordData, Repr, Type};
use control_wire::{Ipv4Address, Ipv6Address, Result};
use record_wire::Name;

/// An address of a name.
#[derive(Debug, PartialEq, Eq, Clone, Copy)]
pub enum Address {
    /// An IPv4 address, of a record of type A.
    V4(Ipv4Address),
    /// An IPv6 address, of a record of type AAAA.
    V6(Ipv6Address),
}

/// An address of a name, and the number of seconds for which it may be kept.
#[derive(Debug, PartialEq, Eq, Clone, Copy)]
pub struct AddressRecord {
    /// The address.
    pub address: Address,
    /// The time to live, in seconds.
    pub ttl: u32,
}

/// Writes the query for the records of a type at the name of a text to the start of the octets, and returns its length
/// in bytes: None where they are too short. Refused where the text is no name (RFC 1035 section 5.1).
pub fn query_text(
    transaction_id: u16,
    text: &[u8],
    type_: Type,
    out: &mut [u8],
) -> Result<Option<usize>>
    ensures written { (labels : List (List ℕ)) → IsNameText text.now labels → IfOk result (λ sent.
        IfSome sent (λ n. take n out.new
        ≡ message_text (query_for transaction_id (wire labels) type_))) }
    ensures room { (labels : List (List ℕ)) → IsNameText text.now labels
        → text_len (query_for transaction_id (wire labels) type_) ≤ length out.old
        → IfOk result (λ sent. IsSome sent) }
    ensures names { IfOk result (λ sent. (labels : List (List ℕ)) × IsNameText text.now labels) }
    ensures refused { IsErr result → (labels : List (List ℕ)) → IsNameText text.now labels → ⊥ }
{
    let name = Name::from_text(text)?;
    Ok(query(transaction_id, name.octets(), type_, out))
}

/// Writes the query for the records of a type at a name to the start of the octets, and returns its length in bytes.
/// None exactly where they are too short; then they are unchanged. Requires a name of at most 255 bytes (RFC 1035
/// section 2.3.4).
pub fn query(transaction_id: u16, name: &[u8], type_: Type, out: &mut [u8]) -> Option<usize>
    requires { length name.now ≤ 255 }
    ensures written { IfSome result (λ n. take n out.new
        ≡ message_text (query_for transaction_id name.now type_)) }
    ensures read { let query = query_for transaction_id name.now type_ in
        IsCanonical query → IfSome result (λ n. IsQuery (take n out.new) query) }
    ensures len { IfSome result (λ n. n ≡ text_len (query_for transaction_id name.now type_)) }
    ensures room { text_len (query_for transaction_id name.now type_) ≤ length out.old
        → IsSome result }
    ensures fits { IfSome result (λ n. n ≤ length out.new) }
    ensures rest { IfSome result (λ n. drop n out.new ≡ drop n out.old) }
    ensures unwritten { result ≡ None → out.new ≡ out.old }
{
    let question = Question { name, type_ };
    let query = Repr {
        transaction_id,
        opcode: Opcode::Query,
        flags: Flags::RECURSION_DESIRED,
        question,
    };
    let len = query.buffer_len();
    if out.len() < len {
        return None;
    }
    query.emit_into(&mut out[..len]);
    Some(len)
}

/// The part of a response's answers that is still to be read, and the name whose addresses are sought in it.
#[derive(Clone, Copy)]
pub struct Answers<'a> {
    /// The whole response, for the pointers of its names.
    pub message: &'a [u8],
    /// The name, in the form that is written in a message.
    pub name: &'a [u8],
    /// The type of the addresses, A or AAAA.
    pub type_: Type,
    /// The number of records that are left.
    pub left: u16,
    /// The bytes from the next record on.
    pub bytes: &'a [u8],
}

/// What the response to a query tells.
#[derive(Clone, Copy)]
pub enum Response<'a> {
    /// The query succeeded, and these are all answers.
    Whole(Answers<'a>),
    /// The query succeeded, and these are as many answers as a datagram had room for: TCP gives all of them (RFC 1035
    /// section 4.2, RFC 7766 section 5).
    Truncated(Answers<'a>),
    /// The query failed: there is no such name (`NXDomain`), or the server has a fault (`ServFail`), refuses
    /// (`Refused`), or another code.
    Failed(Rcode),
}

/// What the response to a query tells. None exactly where the octets are no response to it.
pub fn read_answers<'a>(
    message: &'a [u8],
    transaction_id: u16,
    name: &'a [u8],
    type_: Type,
) -> Option<Response<'a>>
    ensures tells { IfSome result (λ response.
        Tells message.entry.now transaction_id name.entry.now type_ response) }
    ensures response { (rest : List ℕ)
        → IsResponse message.entry.now transaction_id name.entry.now type_ rest → IsSome result }
{
    let packet = match Packet::new_checked(message) {
        Ok(packet) => packet,
        Err(_) => return None,
    };
    if !responds(&packet, transaction_id) {
        return None;
    }
    let bytes = match after_question(message, name, type_) {
        Some(bytes) => bytes,
        None => return None,
    };
    let answers = Answers {
        message,
        name,
        type_,
        left: packet.answer_record_count(),
        bytes,
    };
    Some(match packet.rcode() {
        Rcode::NoError if packet.flags().contains(Flags::TRUNCATED) => Response::Truncated(answers),
        Rcode::NoError => Response::Whole(answers),
        code => Response::Failed(code),
    })
}

// Whether the header is that of the response to a query.
fn responds(packet: &Packet<&[u8]>, transaction_id: u16) -> bool
    requires { Reaches header (view_octets packet.now) }
    ensures { IsTrue result ↔ Responds (view_octets packet.now) transaction_id }
{
    if packet.transaction_id() != transaction_id {
        return false;
    }
    if !packet.flags().contains(Flags::RESPONSE) {
        return false;
    }
    if packet.opcode() != Opcode::Query {
        return false;
    }
    packet.question_count() == 1
}

// What follows the question, where it is the question that was asked.
fn after_question<'a>(message: &'a [u8], name: &'a [u8], type_: Type) -> Option<&'a [u8]>
    requires { Reaches header message.now }
    ensures asks { IfSome result (λ rest. Asks message.entry.now name.entry.now type_ rest.now) }
    ensures all { (rest : List ℕ)
        → Asks message.entry.now name.entry.now type_ rest → IsSome result }
{
    let packet = Packet::new_unchecked(message);
    let (rest, question) = match Question::parse(packet.payload()) {
        Ok(read) => read,
        Err(_) => return None,
    };
    if question.type_ != type_ {
        return None;
    }
    if !same_name(&packet, question.name, name) {
        return None;
    }
    Some(rest)
}

/// The next address of the name, of the type that was asked for, and what is left to read after it. None where there is
/// no further one, up to the first record that can't be read. An alias counts for the records after it.
pub fn next_address(answers: Answers<'_>) -> Option<(AddressRecord, Answers<'_>)>
    ensures found { IfSome result (λ next. Finds answers.entry.message.now answers.entry.type_
        next.0 (search_of next.1) (search_of answers.entry)) }
    ensures message { IfSome result (λ next. next.1.message.now ≡ answers.entry.message.now) }
    ensures type_ { IfSome result (λ next. next.1.type_ ≡ answers.entry.type_) }
    ensures none { result ≡ None → (address : AddressRecord) (after : Search)
        → Finds answers.entry.message.now answers.entry.type_ address after
        (search_of answers.entry) → ⊥ }
    ensures fewer { IfSome result (λ next. next.1.left < answers.entry.left) }
{
    let message = answers.message;
    let type_ = answers.type_;
    let packet = Packet::new_unchecked(message);
    let mut name = answers.name;
    let mut left = answers.left;
    let mut bytes = answers.bytes;
    'records: while left > 0 {
        let (rest, record) = match Record::parse(bytes) {
            Ok(read) => read,
            Err(_) => return None,
        };
        left -= 1;
        bytes = rest;
        match read_turn(&packet, &record, name, type_) {
            Turn::Found(found) => {
                let after = Answers {
                    message,
                    name,
                    type_,
                    left,
                    bytes,
                };
                return Some((found, after));
            }
            Turn::Sought(next) => name = next,
        }
    }
    None
}

/// What a record gives in a search for a name's addresses: an address, or the name to continue with.
#[derive(Clone, Copy)]
enum Turn<'a> {
    Found(AddressRecord),
    Sought(&'a [u8]),
}

// What the record gives.
fn read_turn<'a>(
    packet: &Packet<&'a [u8]>,
    record: &Record<'a>,
    name: &'a [u8],
    type_: Type,
) -> Turn<'a>
    ensures { Says (view_octets packet.entry.now) type_ name.entry.now (value_of record.entry.now)
        (turn_of result) }
{
    if !same_name(packet, record.name, name) {
        return Turn::Sought(name);
    }
    let ttl = record.ttl;
    match (record.data, type_) {
        (RecordData::A(address), Type::A) => Turn::Found(AddressRecord {
            address: Address::V4(address),
            ttl,
        }),
        (RecordData::Aaaa(address), Type::Aaaa) => Turn::Found(AddressRecord {
            address: Address::V6(address),
            ttl,
        }),
        (RecordData::Cname(alias_of), _) => Turn::Sought(alias_of),
        _ => Turn::Sought(name),
    }
}

/// Whether two names of a message have the same labels, letters of ASCII in either case, wherever their pointers lead.
pub fn same_name<'a>(packet: &Packet<&'a [u8]>, a: &'a [u8], b: &'a [u8]) -> bool
    ensures { IsTrue result
        ↔ AreSameName (view_octets packet.entry.now) a.entry.now b.entry.now }
{
    let mut left = packet.parse_name(a);
    let mut right = packet.parse_name(b);
    while let Some(item) = left.next() {
        let label = match item {
            Ok(label) => label,
            Err(_) => return false,
        };
        if !is_label(right.next(), label) {
            return false;
        }
    }
    is_end(right.next())
}

// Whether a walk returned this label, in either case.
fn is_label(answer: Option<Result<&[u8]>>, bytes: &[u8]) -> bool
    ensures { IsTrue result ↔ GivesLabel (answer_of answer.entry) bytes.now }
{
    match answer {
        Some(Ok(found)) => found.eq_ignore_ascii_case(bytes),
        Some(Err(_)) => false,
        None => false,
    }
}

// Whether a walk ended.
fn is_end(answer: Option<Result<&[u8]>>) -> bool
    ensures { IsTrue result ↔ (answer_of answer.entry ≡ ending) }
{
    match answer {
        Some(Ok(_)) => false,
        Some(Err(_)) => false,
        None => true,
    }
}
