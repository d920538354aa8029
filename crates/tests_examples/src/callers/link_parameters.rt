use crate::testing::same;
use control_wire::Duration;
use control_wire::ndisc::RouterFlags;
use examples::link_parameters::LinkParameters;
use examples::router::RouterInformation;

fn told(hop_limit: u8, mtu: Option<u32>, reachable: u32, retrans: u32) -> RouterInformation {
    RouterInformation {
        hop_limit,
        flags: RouterFlags::OTHER,
        lifetime: Duration::from_secs(0),
        reachable_time: Duration::from_millis(reachable as u64),
        retrans_time: Duration::from_millis(retrans as u64),
        lladdr: None,
        mtu,
    }
}

fn parameters(hop_limit: u8, mtu: u32, reachable: u32, retrans: u32) -> LinkParameters {
    LinkParameters {
        hop_limit,
        mtu,
        reachable_time: Duration::from_millis(reachable as u64),
        retrans_time: Duration::from_millis(retrans as u64),
    }
}

// RFC 4861 section 6.3.4.
#[test]
fn what_is_told_takes_the_place_of_what_was(rt: HostRuntime) {
    let first = parameters(64, 1_500, 30_000, 1_000);
    same(&rt, LinkParameters::new(), first);
    let rows = [
        (told(0, None, 0, 0), first),
        (
            told(63, Some(1_400), 20_000, 2_000),
            parameters(63, 1_400, 20_000, 2_000),
        ),
        (told(0, Some(1_280), 0, 1), parameters(64, 1_280, 30_000, 1)),
        (told(0, Some(1_279), 0, 0), first),
        (told(0, Some(1_501), 0, 0), first),
    ];
    for (told, then) in rows {
        let mut parameters = LinkParameters::new();
        parameters.learn(&told);
        same(&rt, parameters, then);
    }
}
