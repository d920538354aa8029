use crate::testing::{prints, same, same_of, takes_writes};
use wirebase::Duration;

#[test]
fn parts(rt: HostRuntime) {
    // In microseconds: the duration, and its milliseconds, its seconds and the milliseconds past them.
    const ROWS: &[(u64, [u64; 3])] = &[
        (0, [0, 0, 0]),
        (999, [0, 0, 0]),
        (900_001, [900, 0, 900]),
        (1_007_999, [1_007, 1, 7]),
        (12_800_000, [12_800, 12, 800]),
        (900_001_000, [900_001, 900, 1]),
        (900_000_000, [900_000, 900, 0]),
        (
            18_446_744_073_709_551_000,
            [18_446_744_073_709_551, 18_446_744_073_709, 551],
        ),
        (
            18_446_744_073_709_000_000,
            [18_446_744_073_709_000, 18_446_744_073_709, 0],
        ),
    ];
    for &(micros, wanted) in ROWS {
        let duration = Duration::from_micros(micros);
        same(&rt, duration.total_micros(), micros);
        let parts = [duration.total_millis(), duration.secs(), duration.millis()];
        same_of(&rt, micros, parts, wanted);
    }
}

#[test]
fn durations_of_millis_and_of_seconds(rt: HostRuntime) {
    const MOST_MILLIS: u64 = 18_446_744_073_709_551;
    const MOST_SECS: u64 = 18_446_744_073_709;
    same(&rt, Duration::from_micros(0), Duration::ZERO);
    let of_millis = [
        Duration::from_millis(12_800).total_micros(),
        Duration::from_millis(900_001).total_micros(),
        Duration::from_millis(MOST_MILLIS).total_micros(),
    ];
    same(
        &rt,
        of_millis,
        [12_800_000, 900_001_000, 18_446_744_073_709_551_000],
    );
    let of_secs = [
        Duration::from_secs(900).total_micros(),
        Duration::from_secs(MOST_SECS).total_micros(),
    ];
    same(&rt, of_secs, [900_000_000, 18_446_744_073_709_000_000]);
}

#[test]
fn equality_and_order(rt: HostRuntime) {
    let second = Duration::from_secs(1);
    same(&rt, Duration::from_millis(1_000), second);
    same(&rt, Duration::from_micros(1) != Duration::ZERO, true);
    same(&rt, Duration::from_micros(999_999) < second, true);
    same(
        &rt,
        Duration::from_millis(2_001) > Duration::from_secs(2),
        true,
    );
}

#[test]
fn prints_seconds_and_three_digits(rt: HostRuntime) {
    const ROWS: &[(u64, &str)] = &[
        (0, "0.000s"),
        (999, "0.000s"),
        (12_800_000, "12.800s"),
        (900_001_000, "900.001s"),
        (1_050_999, "1.050s"),
        (u64::MAX, "18446744073709.551s"),
    ];
    for &(micros, text) in ROWS {
        prints(&rt, rt.alloc(), &Duration::from_micros(micros), text);
    }
}

#[test]
fn printing_fails_only_with_its_writer(rt: HostRuntime) {
    takes_writes(&rt, &Duration::from_millis(12_800), 6);
}
