//! Messages read from octets.

ghost use Rattle.std.specs.Prelude.{◌≡◌, ◌≤◌, ◌<◌, ◌+◌, Some, length, take, drop, IfOk, IfErr, IsOkAnd, ℕ};
ghost use Rattle.wirebase.specs.Bytes.{number_of};
ghost use Rattle.wirebase.specs.Checks.{Fails, Passes};
ghost use Rattle.wirebase.specs.Format.{Rewrites};
ghost use Rattle.group_wire.specs.Family.{group_at, older_len};
ghost use Rattle.group_wire.specs.Membership.{Value, value_of, IsContent, IsMessage, Refuses, kind_checks, kind_in};
ghost use Rattle.group_wire.specs.Membership.{code_in, group_in, record_count_field, report_len_in, format};
ghost use Rattle.group_wire.specs.Records.{count_in, octets_in};
ghost use Rattle.group_wire.specs.declared.family.Family.{Family};
ghost use Rattle.group_wire.specs.declared.family.Kind.{Kind};
ghost use Rattle.group_wire.specs.declared.refusal.Refusal.{Refusal};

use super::{Membership, Message, field};
use crate::address::Address;
use crate::family::{Family, Kind};
use crate::query::{Query, S_FLAG};
use crate::records::{Records, records_len};
use crate::refusal::Refusal;
use crate::sources::Sources;
use wirebase::{Octets, are_bytes, checksum};

// The message that these octets are, where `extra` is the sum of a pseudo header.
pub(super) fn read<A: Address>(octets: &[u8], extra: u16) -> Result<Membership<'_, A>, Refusal>
    ensures sound { IfOk result (λ message.
        IsMessage A.family extra octets.now (value_of A.bytes message)) }
    ensures complete { (value : Value) → IsMessage A.family extra octets.now value
        → IsOkAnd result (λ message. value_of A.bytes message ≡ value) }
    ensures told { IfErr result (Refuses A.family extra octets.now) }
    ensures rewrites { (sum : ℕ → ℕ) → sum (length octets.now) ≡ extra → length octets.now ≤ 65515
        → IfOk result (λ message. Rewrites (format A.family sum) (value_of A.bytes message)) }
{
    are_bytes(octets);
    read_message(octets, extra)
}

// The message that these octets are.
fn read_message<A: Address>(octets: &[u8], extra: u16) -> Result<Membership<'_, A>, Refusal>
    ensures sound { IfOk result (λ message.
        IsMessage A.family extra octets.now (value_of A.bytes message)) }
    ensures complete { (value : Value) → IsMessage A.family extra octets.now value
        → IsOkAnd result (λ message. value_of A.bytes message ≡ value) }
    ensures told { IfErr result (Refuses A.family extra octets.now) }
{
    if octets.len() < field::HEADER_END {
        return Err(Refusal::Short);
    }
    if !checksum::is_good(octets, extra) {
        return Err(Refusal::Checksum);
    }
    read_content(octets)
}

// What the octets say, whose checksum is good.
fn read_content<A: Address>(octets: &[u8]) -> Result<Membership<'_, A>, Refusal>
    requires { 8 ≤ length octets.now }
    ensures sound { IfOk result (λ message. IsContent A.family octets.now (value_of A.bytes message)) }
    ensures passes { IfOk result (λ message.
        Passes (kind_checks A.family octets.now (kind_in A.family octets.now))) }
    ensures told { IfErr result
        (Fails (kind_checks A.family octets.now (kind_in A.family octets.now))) }
{
    let number = octets[0];
    match A::family().kind(number) {
        Some(Kind::Query) => read_query(octets),
        Some(Kind::OldestReport) => Ok(Message::OldestReport {
            group: read_group(octets)?,
        }),
        Some(Kind::OlderReport) => Ok(Message::OlderReport {
            group: read_group(octets)?,
        }),
        Some(Kind::Leave) => Ok(Message::Leave {
            group: read_group(octets)?,
        }),
        Some(Kind::Report) => Ok(Message::Report {
            records: read_records(octets)?,
        }),
        None => Err(Refusal::UnknownType(number)),
    }
}

// The group of a message of an older version.
fn read_group<A: Address>(octets: &[u8]) -> Result<A, Refusal>
    ensures group { IfOk result (λ group. A.bytes group ≡ group_in A.family octets.now) }
    ensures whole { IfOk result (λ group. older_len A.family ≤ length octets.now) }
    ensures told { IfErr result (λ refusal. refusal ≡ Refusal.Length) }
    ensures cut { IfErr result (λ refusal. length octets.now < older_len A.family) }
{
    if octets.len() < A::family().older_len() {
        return Err(Refusal::Length);
    }
    Ok(group_in(octets))
}

// What the octets of a query say.
fn read_query<A: Address>(octets: &[u8]) -> Result<Membership<'_, A>, Refusal>
    requires kind { kind_in A.family octets.now ≡ Some Kind.Query }
    ensures sound { IfOk result (λ message. IsContent A.family octets.now (value_of A.bytes message)) }
    ensures passes { IfOk result (λ message.
        Passes (kind_checks A.family octets.now (Some Kind.Query))) }
    ensures told { IfErr result (Fails (kind_checks A.family octets.now (Some Kind.Query))) }
{
    let older_len = A::family().older_len();
    if octets.len() == older_len {
        return Ok(Message::OlderQuery {
            max_resp_code: read_code(A::family(), octets),
            group: group_in(octets),
        });
    }
    let sources_at = older_len + 4;
    if octets.len() < sources_at {
        return Err(Refusal::Length);
    }
    let sources_len = A::width() * octets.u16_at(older_len + 2..sources_at) as usize;
    if octets.len() < sources_at + sources_len {
        return Err(Refusal::Cut);
    }
    let sqrv = octets[older_len];
    Ok(Message::Query(Query {
        max_resp_code: read_code(A::family(), octets),
        group: group_in(octets),
        s_flag: sqrv / S_FLAG % 2 == 1,
        qrv: sqrv % S_FLAG,
        qqic: octets[older_len + 1],
        sources: Sources::of_octets(&octets[sources_at..sources_at + sources_len]),
    }))
}

// The response code.
fn read_code(family: Family, octets: &[u8]) -> u16
    requires { group_at family ≤ length octets.now }
    ensures { result ≡ code_in family octets.now }
{
    match family {
        Family::Igmp => octets[1] as u16,
        Family::Mld => octets.u16_at(4..6),
    }
}

// The group.
fn group_in<A: Address>(octets: &[u8]) -> A
    requires { older_len A.family ≤ length octets.now }
    ensures { A.bytes result ≡ group_in A.family octets.now }
{
    let family = A::family();
    A::read(octets.range(family.group_at(), family.older_len()))
}

// The records of a report.
fn read_records<A: Address>(octets: &[u8]) -> Result<Records<'_, A>, Refusal>
    requires { 8 ≤ length octets.now }
    ensures count { IfOk result (λ records. count_in records ≡ number_of record_count_field octets.now) }
    ensures octets { IfOk result (λ records.
        octets_in records ≡ take (report_len_in A.family octets.now) (drop 8 octets.now)) }
    ensures whole { IfOk result (λ records. report_len_in A.family octets.now ≤ length (drop 8 octets.now)) }
    ensures told { IfErr result (λ refusal. refusal ≡ Refusal.Cut) }
    ensures cut { IfErr result (λ refusal. length (drop 8 octets.now) < report_len_in A.family octets.now) }
{
    let count = octets.u16_at(field::RECORD_COUNT);
    let behind = &octets[field::HEADER_END..];
    match records_len::<A>(count, behind) {
        Some(len) => Ok(Records::new(count, &behind[..len])),
        None => Err(Refusal::Cut),
    }
}
