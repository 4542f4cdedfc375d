ghost use Rattle.std.specs.Prelude.{◌≡◌, ◌+◌, ◌≤◌, ◌∷◌, IfOk, length, drop, IsErr};
ghost use Rattle.std.specs.BTreeMap.{IsFromIterResult};
ghost use Rattle.room.specs.Refusals.{Rises};
ghost use Rattle.key_counts.specs.Rising.{Shows, times_in};
ghost use Rattle.key_counts.specs.Runs.{runs_of, runs_after};

use room::{OutOfMemory, Room};
use std::collections::BTreeMap;

// Each key with how often it occurs. It sorts the keys first.
pub(crate) fn map_of_keys<K: Copy + Ord>(
    room: &mut Room,
    mut keys: Vec<K>,
) -> Result<BTreeMap<K, u64>, OutOfMemory>
    ensures shows { IfOk result (λ m. Shows K.cmp (times_in K.cmp keys.items) m.entries) }
    ensures memory { Rises (IsErr result) room.old room.new }
{
    keys.sort_unstable();
    map_of_runs(room, keys.as_slice())
}

// Each key of a sorted list with the length of its run, put into the map in one go.
fn map_of_runs<K: Copy + Ord>(room: &mut Room, keys: &[K]) -> Result<BTreeMap<K, u64>, OutOfMemory>
    ensures runs { IfOk result (IsFromIterResult K.cmp (runs_of K.cmp keys.now)) }
    ensures memory { Rises (IsErr result) room.old room.new }
{
    let made = Runs { rest: keys }.collect(room.alloc());
    room.told(made)
}

// The keys that are left, one run of equal keys after the other, each with its length. It takes no
// memory.
#[derive(Drop)]
struct Runs<'a, K> {
    rest: &'a [K],
}

impl<'a, K: Copy + Ord> Iterator for Runs<'a, K> {
    ghost use Rattle.std.specs.Iterator.{YieldsFirst, item_count};
    ghost use Rattle.key_counts.specs.Runs.{runs_of};

    type Item = (K, u64);

    ghost next_gives = { YieldsFirst (λ s. runs_of K.cmp s.rest.now) };

    ghost remaining = { item_count (λ s. runs_of K.cmp s.rest.now) };

    fn next(&mut self) -> Option<(K, u64)> {
        let (first, others) = self.rest.split_first()?;
        let more = equal_in_front(first, others);
        self.rest = &others[more..];
        Some((*first, more as u64 + 1))
    }
}

// How many keys in front are equal to this one.
fn equal_in_front<K: Ord>(key: &K, keys: &[K]) -> usize
    ensures within { result ≤ length keys.now }
    ensures runs { runs_after K.cmp key.now 1 keys.now ≡ (key.now, result + 1) ∷
        runs_of K.cmp (drop result keys.now) }
{
    let mut count = 0;
    for other in keys {
        if other != key {
            break;
        }
        count += 1;
    }
    count
}
