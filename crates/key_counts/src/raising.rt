// Keys that are counted together, or none of them where a growth is refused. A key that is missing
// is not counted.
ghost use Rattle.std.specs.Prelude.{◌≡◌, ◌+◌, ◌<◌, ◌≤◌, ◌^◌, OnOk, OnErr, IsOk, None, Some, if◌then◌else◌, IsErr};
ghost use Rattle.std.specs.Ordering.{is_eq};
ghost use Rattle.room.specs.Refusals.{Rises};
ghost use Rattle.key_counts.specs.Numbers.{IsSame, IsMoreBy, HasRoom, Holds, beside_of};

use crate::Counter;
use room::{OutOfMemory, Room};

/// The key that is counted beside another: none where both are the same. Takes no memory.
pub fn beside<K: Copy + Ord>(key: Option<K>, other: Option<K>) -> Option<K>
    ensures { result ≡ beside_of K.cmp key other }
{
    match key {
        Some(own) => match other {
            Some(its) => unless_same(own, its),
            None => Some(own),
        },
        None => None,
    }
}

// The key, unless it is the same as the other.
fn unless_same<K: Copy + Ord>(key: K, other: K) -> Option<K>
    ensures { result ≡ (if is_eq (K.cmp key other) then None else Some key) }
{
    if key.cmp(&other).is_eq() {
        None
    } else {
        Some(key)
    }
}

/// Counts the key once more, where there is one. Takes memory for a key that is not held, and
/// leaves all as it was where the growth is refused.
pub fn raise_any<K: Copy, C: Counter<K>>(
    room: &mut Room,
    counter: &mut C,
    key: Option<K>,
) -> Result<(), OutOfMemory>
    requires { HasRoom C.seen C.cmp (C.number counter.old) key }
    ensures ok { OnOk result
        (IsMoreBy C.seen C.cmp (C.number counter.old) (C.number counter.new) key) }
    ensures err { OnErr result (IsSame (C.number counter.old) (C.number counter.new)) }
    ensures held { Holds C.seen C.cmp (C.number counter.old) key → IsOk result }
    ensures memory { Rises (IsErr result) room.old room.new }
{
    match key {
        Some(key) => counter.raise(room, key),
        None => Ok(()),
    }
}

/// Counts the key once less, where there is one. Takes no memory.
pub fn lower_any<K: Copy, C: Counter<K>>(counter: &mut C, key: Option<K>)
    requires { Holds C.seen C.cmp (C.number counter.old) key }
    ensures { IsMoreBy C.seen C.cmp (C.number counter.new) (C.number counter.old)
        key }
{
    if let Some(key) = key {
        counter.lower(key);
    }
}

/// Counts one key more in each of two counters, or in neither where a growth is refused; a key that
/// is missing is not counted. Takes memory for a key that is not held.
pub fn raise_both<A: Copy, B: Copy, F: Counter<A>, S: Counter<B>>(
    room: &mut Room,
    first: &mut F,
    a: Option<A>,
    second: &mut S,
    b: Option<B>,
) -> Result<(), OutOfMemory>
    requires room_first { HasRoom F.seen F.cmp (F.number first.old) a }
    requires room_second { HasRoom S.seen S.cmp (S.number second.old) b }
    ensures ok_first { OnOk result
        (IsMoreBy F.seen F.cmp (F.number first.old) (F.number first.new) a) }
    ensures ok_second { OnOk result
        (IsMoreBy S.seen S.cmp (S.number second.old) (S.number second.new) b) }
    ensures err_first { OnErr result (IsSame (F.number first.old) (F.number first.new)) }
    ensures err_second { OnErr result (IsSame (S.number second.old) (S.number second.new)) }
    ensures held { Holds F.seen F.cmp (F.number first.old) a →
        Holds S.seen S.cmp (S.number second.old) b → IsOk result }
    ensures memory { Rises (IsErr result) room.old room.new }
{
    raise_any(room, first, a)?;
    if let Err(error) = raise_any(room, second, b) {
        lower_any(first, a);
        return Err(error);
    }
    Ok(())
}

/// Counts one key less in each of two counters; a key that is missing stays. Takes no memory.
pub fn lower_both<A: Copy, B: Copy, F: Counter<A>, S: Counter<B>>(
    first: &mut F,
    a: Option<A>,
    second: &mut S,
    b: Option<B>,
)
    requires first { Holds F.seen F.cmp (F.number first.old) a }
    requires second { Holds S.seen S.cmp (S.number second.old) b }
    ensures first { IsMoreBy F.seen F.cmp (F.number first.new) (F.number first.old)
        a }
    ensures second { IsMoreBy S.seen S.cmp (S.number second.new) (S.number second.old)
        b }
{
    lower_any(first, a);
    lower_any(second, b);
}
