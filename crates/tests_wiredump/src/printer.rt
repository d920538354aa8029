//! Lines and fields, by the values that they are of.

use crate::testing::{holds_of, same_of};
use listing::printer::{Value, field, line, part_field};
use std::alloc::Global;
use std::process::Abort;

// A field of this value prints its name, `=` and this.
fn check_field<V: Value>(rt: &impl Abort, alloc: Global, value: V, want: &str) {
    let mut output = Vec::new(alloc);
    holds_of(rt, want, field(&mut output, "delay", value).is_ok());
    same_of(rt, want, output.as_slice(), want.as_bytes());
}

#[test]
fn fields_of_values(rt: HostRuntime) {
    let alloc = rt.alloc();
    check_field(&rt, alloc, 0u8, "delay=0\n");
    check_field(&rt, alloc, 10u8, "delay=10\n");
    check_field(&rt, alloc, 99u8, "delay=99\n");
    check_field(&rt, alloc, 100u8, "delay=100\n");
    check_field(&rt, alloc, 101u8, "delay=101\n");
    check_field(&rt, alloc, u8::MAX, "delay=255\n");
    check_field(&rt, alloc, 1_280u16, "delay=1280\n");
    check_field(&rt, alloc, 9_999u16, "delay=9999\n");
    check_field(&rt, alloc, 10_000u16, "delay=10000\n");
    check_field(&rt, alloc, u32::MAX, "delay=4294967295\n");
    check_field(&rt, alloc, u64::MAX, "delay=18446744073709551615\n");
    check_field(&rt, alloc, 4_294_967_295usize, "delay=4294967295\n");
    check_field(&rt, alloc, true, "delay=true\n");
    check_field(&rt, alloc, false, "delay=false\n");
    check_field(&rt, alloc, None::<u32>, "delay=none\n");
    check_field(&rt, alloc, Some(64u8), "delay=64\n");
    check_field(&rt, alloc, b"".as_slice(), "delay=-\n");
    check_field(&rt, alloc, b"\xfe\x80\0\x01".as_slice(), "delay=fe800001\n");
}

#[test]
fn lines_and_fields_of_parts(rt: HostRuntime) {
    let mut output = Vec::new(rt.alloc());
    holds_of(&rt, "name", line(&mut output, "Redirect").is_ok());
    holds_of(&rt, "octets", line(&mut output, b"\x61".as_slice()).is_ok());
    let number = part_field(
        &mut output,
        "redirected_hdr.header.",
        "payload_len",
        1_280u16,
    );
    holds_of(&rt, "number", number.is_ok());
    let data = part_field(&mut output, "redirected_hdr.", "data", b"".as_slice());
    holds_of(&rt, "data", data.is_ok());
    let want = "Redirect\n61\nredirected_hdr.header.payload_len=1280\nredirected_hdr.data=-\n";
    same_of(&rt, "all", output.as_slice(), want.as_bytes());
}
