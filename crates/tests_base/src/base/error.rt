use crate::testing::{prints, takes_writes};
use wirebase::Error;

#[test]
fn prints_its_name(rt: HostRuntime) {
    prints(&rt, rt.alloc(), &Error, "wire::Error");
}

#[test]
fn printing_fails_only_with_its_writer(rt: HostRuntime) {
    takes_writes(&rt, &Error, 1);
}
