use crate::testing::{prints, takes_writes};
use frame_wire::tcp::{Refusal, TcpSegment};

#[test]
fn segments_and_refusals_in_words(rt: HostRuntime) {
    let segment = TcpSegment {
        src_port: 49152,
        dst_port: 53,
        payload: &[1, 2, 3],
    };
    prints(&rt, rt.alloc(), &segment, "TCP src=49152 dst=53 len=3");
    takes_writes(&rt, &segment, 6);
    let rows = [
        (Refusal::Short, "fewer than the 20 bytes of a TCP header"),
        (
            Refusal::HeaderLen(16),
            "a TCP header length of 16 is below 20",
        ),
        (
            Refusal::Cut(32),
            "fewer than the 32 bytes of the TCP header",
        ),
    ];
    for (refusal, text) in rows {
        prints(&rt, rt.alloc(), &refusal, text);
    }
}
