use crate::testing::same;
use examples::first::print_message;
use std::alloc::Global;
use std::process::Abort;

// Ends the test where these octets print another text.
fn check_prints(rt: &impl Abort, alloc: Global, octets: &[u8], text: &str) {
    let mut output = Vec::new(alloc);
    same(rt, print_message(&mut output, octets).is_ok(), true);
    same(rt, output.as_slice(), text.as_bytes());
}

#[test]
fn a_message_is_printed(rt: HostRuntime) {
    let octets = b"\x08\x00\x8e\xfe\x12\x34\xab\xcd\xaa\x00\x00\xff";
    check_prints(
        &rt,
        rt.alloc(),
        octets,
        "ICMPv4 echo request id=4660 seq=43981 len=4\n",
    );
}

#[test]
fn a_message_with_a_wrong_checksum_is_refused(rt: HostRuntime) {
    let octets = b"\x08\x00\x8e\xff\x12\x34\xab\xcd\xaa\x00\x00\xff";
    check_prints(&rt, rt.alloc(), octets, "refused\n");
}
