// What the times of a file tell of a change that comes after them.
ghost use Rattle.std.specs.Prelude.{◌≡◌, max};
ghost use Rattle.std.specs.Duration.{as_nanos};
ghost use Rattle.safe_save.specs.Times.{apart_of, wait_after};

use std::time::Duration;

// Where both times of a file are whole seconds, its file system keeps no parts of one: the times of
// FAT are two seconds apart, those of others one.
const COARSE: u64 = 2_000_000_000;

// Elsewhere a time is that of the system's last tick. The slowest tick of Linux is 10 ms, and one
// may come late.
const FINE: u64 = 20_000_000;

/// How long to wait until each later change of a file gets other times than these, its last
/// modification and its last change, since 1970: a change that comes before may get the same.
/// Nothing where they are old enough. A time that is still to come, as of a server whose clock is
/// ahead, is waited for too.
pub fn wait_of(now: Duration, modified: Duration, changed: Duration) -> Duration
    ensures { as_nanos result ≡ wait_after (as_nanos now) (as_nanos modified) (as_nanos changed) }
{
    let apart = Duration::from_nanos(apart(modified, changed));
    let told = last(modified, changed).saturating_add(apart);
    told.saturating_sub(now)
}

// How far apart the times of a file system are that gave these two.
fn apart(modified: Duration, changed: Duration) -> u64
    ensures { result ≡ apart_of (as_nanos modified) (as_nanos changed) }
{
    if modified.subsec_nanos() == 0 && changed.subsec_nanos() == 0 {
        COARSE
    } else {
        FINE
    }
}

// The later of two times.
fn last(modified: Duration, changed: Duration) -> Duration
    ensures { as_nanos result ≡ max (as_nanos modified) (as_nanos changed) }
{
    if modified < changed {
        changed
    } else {
        modified
    }
}
