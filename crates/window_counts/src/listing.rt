// Lists of keys with their numbers.
ghost use Rattle.std.specs.Prelude.{◌≡◌, [], ◌++◌, length, map, OnOk, IfOk, IsErr};
ghost use Rattle.room.specs.Refusals.{Rises};
ghost use Rattle.window_counts.specs.Window.{entry_before, entries, merge, is_first};

use crate::slots::Slots;
use crate::window::Window;
use key_counts::FromCount;
use room::{OutOfMemory, Room};

// Puts a key with its number behind a list, unless the number is 0.
pub(crate) fn push_held<K: Copy, T: FromCount<K>>(
    room: &mut Room,
    list: &mut Vec<T>,
    key: K,
    number: u64,
) -> Result<(), OutOfMemory>
    ensures ok { OnOk result (map T.count list.new.items ≡
        map T.count list.old.items ++ entry_before key number []) }
    ensures memory { Rises (IsErr result) room.old room.new }
{
    if number > 0 {
        room.told_back(list.push(T::from_count(key, number)))?;
    }
    Ok(())
}

// The keys of a window's places that are above 0, each with its number.
pub(crate) fn listed<K: Copy + Ord, W: Window<K>, T: FromCount<K>>(
    room: &mut Room,
    window: &W,
    slots: &Slots,
) -> Result<Vec<T>, OutOfMemory>
    requires { length slots.now ≡ W.size window.now }
    ensures items { IfOk result (λ list. map T.count list.items ≡
        entries (W.key_of window.now) slots.now) }
    ensures memory { Rises (IsErr result) room.old room.new }
{
    let mut list = Vec::new(room.alloc());
    for place in 0..slots.len() {
        push_held(room, &mut list, window.key_at(place), slots.number(place))?;
    }
    Ok(list)
}

// Both lists in one, the lesser key first.
pub(crate) fn merged<K: Copy + Ord, T: FromCount<K>>(
    room: &mut Room,
    some: &[(K, u64)],
    others: &[(K, u64)],
) -> Result<Vec<T>, OutOfMemory>
    ensures items { IfOk result (λ list. map T.count list.items ≡ merge K.cmp some.now others.now) }
    ensures memory { Rises (IsErr result) room.old room.new }
{
    let mut list = Vec::new(room.alloc());
    let mut i = 0;
    let mut j = 0;
    while i < some.len() || j < others.len() {
        if is_first(&some[i..], &others[j..]) {
            let next = some[i];
            room.told_back(list.push(T::from_count(next.0, next.1)))?;
            i += 1;
        } else {
            let next = others[j];
            room.told_back(list.push(T::from_count(next.0, next.1)))?;
            j += 1;
        }
    }
    Ok(list)
}

// Whether the first list has the next entry.
fn is_first<K: Copy + Ord>(some: &[(K, u64)], others: &[(K, u64)]) -> bool
    ensures { result ≡ is_first K.cmp some.now others.now }
{
    match (some.first(), others.first()) {
        (None, _) => false,
        (Some(_), None) => true,
        (Some(one), Some(other)) => one.0.cmp(&other.0).is_lt(),
    }
}
