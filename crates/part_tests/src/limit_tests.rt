// What the system's texts say of the limit on the size of files, and how long the times of a file
// are too young; with texts as Linux writes them.
use safe_save::{limit_in, place_in, wait_of};
use std::time::Duration;

const LIMITS: &str =
    "Limit                     Soft Limit           Hard Limit           Units     \n\
    Max cpu time              unlimited            unlimited            seconds   \n\
    Max file size             2048                 4096                 bytes     \n\
    Max data size             unlimited            unlimited            bytes     \n";

#[test]
fn the_soft_limit_is_read(rt: HostRuntime) {
    assert_eq!(rt; limit_in(LIMITS), 2048);
    let unlimited = "Max file size             unlimited            unlimited            bytes\n";
    assert_eq!(rt; limit_in(unlimited), u64::MAX);
    assert_eq!(rt; limit_in("Max file size"), u64::MAX);
    assert_eq!(rt; limit_in(""), u64::MAX);
}

#[test]
fn the_next_write_goes_to_the_position_or_to_the_end(rt: HostRuntime) {
    let written = "pos:\t500\nflags:\t0100001\nmnt_id:\t29\nino:\t12\n";
    assert_eq!(rt; place_in(written, 900), 500);
    let appended = "pos:\t0\nflags:\t0102001\nmnt_id:\t29\nino:\t12\n";
    assert_eq!(rt; place_in(appended, 900), 900);
    assert_eq!(rt; place_in("pos:\t500\n", 900), 900);
    assert_eq!(rt; place_in("flags:\t0100001\n", 900), 900);
    assert_eq!(rt; place_in("", 900), 900);
}

#[test]
fn young_times_are_waited_for(rt: HostRuntime) {
    let at = Duration::from_millis;
    let wait = wait_of(at(1_000_100), at(1_000_000), at(1_000_000));
    assert!(rt; wait == at(1_900));
    assert!(rt; wait_of(at(1_002_000), at(1_000_000), at(1_000_000)) == Duration::ZERO);
    assert!(rt; wait_of(at(1_000_006), at(1_000_000), at(1_000_001)) == at(15));
    assert!(rt; wait_of(at(1_000_021), at(1_000_000), at(1_000_001)) == Duration::ZERO);
    assert!(rt; wait_of(Duration::ZERO, at(5), at(4)) == at(25));
    assert!(rt; wait_of(Duration::ZERO, Duration::MAX, at(4)) == Duration::MAX);
}
