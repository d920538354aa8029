//! Messages, and what is printed of them.

use crate::testing::{holds_of, same_of};
use dns_fields::kind::Kind;
use dns_fields::message::show_message;
use dns_fields::unread::Unread;
use packet_fields::Form;
use std::alloc::Global;
use std::process::Abort;

// Messages, of which kind, what they print in lines and in JSON, and the first refusal.
pub(crate) type Row = (
    &'static [u8],
    Kind,
    &'static str,
    &'static str,
    Option<Unread>,
);

// Ends the test unless each message prints this, and answers this.
pub(crate) fn check(rt: &impl Abort, alloc: Global, rows: &[Row]) {
    for &(octets, kind, lines, json, unread) in rows {
        check_message(rt, alloc, Form::Lines, octets, kind, lines, unread);
        check_message(rt, alloc, Form::Json, octets, kind, json, unread);
    }
}

fn check_message(
    rt: &impl Abort,
    alloc: Global,
    form: Form,
    octets: &[u8],
    kind: Kind,
    text: &str,
    unread: Option<Unread>,
) {
    let mut output = Vec::new(alloc);
    match show_message(&mut output, form, kind, octets) {
        Ok(answer) => same_of(rt, text, answer, unread),
        Err(_) => holds_of(rt, text, false),
    }
    match std::str::from_utf8(output.as_slice()) {
        Ok(printed) => same_of(rt, octets, printed, text),
        Err(_) => holds_of(rt, text, false),
    }
}
