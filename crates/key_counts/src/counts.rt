ghost use Rattle.std.specs.Prelude.{◌≡◌, ◌==◌, ◌+◌, ◌-◌, ◌^◌, ◌<◌, ℕ, [], All, length, slice_get, map, option_map, OnOk, OnErr, IsOk, IfOk, IsErr};
ghost use Rattle.std.specs.List.Sorted.{IsStrictlySortedBy};
ghost use Rattle.std.specs.Map.{keys_of, values_of};
ghost use Rattle.std.specs.Map.Iter.{ShowsInOrder, deref_pair};
ghost use Rattle.std.proofs.lemmas.Map.Lookups.{CmpEqualImpliesEq};
ghost use Rattle.room.specs.Refusals.{Rises};
ghost use Rattle.key_counts.specs.Ends.{IsLeast, IsGreatest, IsSpan};
ghost use Rattle.key_counts.specs.Counts.{count_of, with_one_more, with_each_more, with_one_less, HasOneMore};
ghost use Rattle.key_counts.specs.Rising.{Shows, times_in};

use crate::runs::map_of_keys;
use crate::{Counter, FromCount};
use room::{OutOfMemory, Room};
use std::alloc::Global;
use std::collections::BTreeMap;
use std::collections::btree_map::Iter;
use std::marker::Model;

/// How often each key was counted, seen as the list of the keys with their numbers, rising. A key
/// with the number 0 is left out. It keeps its allocator.
#[derive(Drop)]
pub struct Counts<K: Copy + Ord> {
    map: BTreeMap<K, u64>,
}

impl<K: Copy + Ord> Model for Counts<K> {
    ghost use Rattle.std.specs.Prelude.{ℕ, ◌<◌, List, All};
    ghost use Rattle.std.specs.BTreeMap.{values};

    ghost Value = { List (K × ℕ) };

    ghost view = { λ a. a.map.entries };

    ghost invariant = { λ a. All (λ n. 0 < n) (values a.map) };
}

impl<K: Copy + Ord> Counts<K> {
    /// No key. Takes no memory.
    pub fn new(alloc: Global) -> Counts<K>
        ensures { result ≡ [] }
    {
        Counts {
            map: BTreeMap::new(alloc),
        }
    }

    /// How often each of these keys occurs among them, as if each were raised once. The keys are
    /// sorted, which is one pass where they rise already, and then the map is made in one go. Takes
    /// memory for the map and, while it is made, for a list of its pairs; refused for want of it
    /// alone.
    pub fn from_keys(room: &mut Room, keys: Vec<K>) -> Result<Counts<K>, OutOfMemory>
        ensures shows { IfOk result (Shows K.cmp (times_in K.cmp keys.items)) }

        // Where keys that compare equal are one key, it is what raising each makes.
        ensures each { IfOk result (λ v. CmpEqualImpliesEq K.cmp →
            v ≡ with_each_more K.cmp [] keys.items) }
        ensures memory { Rises (IsErr result) room.old room.new }
    {
        let map = map_of_keys(room, keys)?;
        Ok(Counts { map })
    }

    /// The number at the key, 0 where it has none. Takes no memory.
    pub fn count(&self, key: &K) -> u64
        ensures { result ≡ count_of K.cmp self.now key.now }
    {
        self.map.get(key).copied().unwrap_or(0)
    }

    /// Whether no key is counted. Takes no memory.
    pub fn is_empty(&self) -> bool
        ensures { result ≡ (length self.now == 0) }
    {
        self.map.is_empty()
    }

    /// The least key. Takes no memory.
    pub fn least(&self) -> Option<K>
        ensures first { result ≡ option_map (λ e. e.0) (slice_get self.now 0) }
        ensures least { IsLeast K.cmp (count_of K.cmp self.now) result }
    {
        let mut pairs = self.pairs();
        match pairs.next() {
            Some((key, _)) => Some(*key),
            None => None,
        }
    }

    /// The greatest key. Takes no memory.
    pub fn greatest(&self) -> Option<K>
        ensures last { result ≡ option_map (λ e. e.0) (slice_get self.now (length self.now - 1)) }
        ensures greatest { IsGreatest K.cmp (count_of K.cmp self.now) result }
    {
        let mut pairs = self.pairs();
        match pairs.next_back() {
            Some((key, _)) => Some(*key),
            None => None,
        }
    }

    /// The least and the greatest key. Takes no memory.
    pub fn span(&self) -> Option<(K, K)>
        ensures { IsSpan K.cmp (count_of K.cmp self.now) result }
    {
        let least = self.least()?;
        let greatest = self.greatest()?;
        Some((least, greatest))
    }

    /// The keys with their numbers, rising. Takes no memory.
    pub fn pairs(&self) -> Iter<'_, K, u64>
        ensures rest { result ≡ self.now }
        ensures runs { ShowsInOrder (deref_pair {K = K} {X = ℕ}) }
        ensures rising { IsStrictlySortedBy K.cmp (keys_of self.now) }
        ensures positive { All (λ n. 0 < n) (values_of self.now) }
    {
        self.map.iter()
    }

    /// The keys with their numbers as a list, rising. Takes memory for the list.
    pub fn list<T: FromCount<K>>(&self, room: &mut Room) -> Result<Vec<T>, OutOfMemory>
        ensures items { IfOk result (λ list. map T.count list.items ≡ self.now) }
        ensures shows { IfOk result (λ list.
            Shows K.cmp (count_of K.cmp self.now) (map T.count list.items)) }
        ensures memory { Rises (IsErr result) room.old room.new }
    {
        let mut list = Vec::new(room.alloc());
        for (key, number) in self.pairs() {
            let pushed = list.push(T::from_count(*key, *number));
            room.told_back(pushed)?;
        }
        Ok(list)
    }

    /// Counts the key once more. Takes memory for a key that is not held, and leaves all as it was
    /// where the growth is refused. A held key takes one look-up.
    pub fn raise(&mut self, room: &mut Room, key: K) -> Result<(), OutOfMemory>
        requires { count_of K.cmp self.old key + 1 < 2 ^ 64 }
        ensures ok { OnOk result (self.new ≡ with_one_more K.cmp self.old key) }
        ensures err { OnErr result (self.new ≡ self.old) }
        ensures each { OnOk result (HasOneMore K.cmp self.old self.new key) }
        ensures held { 0 < count_of K.cmp self.old key → IsOk result }
        ensures memory { Rises (IsErr result) room.old room.new }
    {
        if let Some(held) = self.map.get_mut(&key) {
            *held += 1;
            return Ok(());
        }
        let inserted = self.map.insert(key, 1);
        room.told_back(inserted)?;
        Ok(())
    }

    /// Counts the key once less, and leaves it out at 0; one look-up, or two where it leaves it
    /// out. Takes no memory.
    pub fn lower(&mut self, key: &K)
        requires { 0 < count_of K.cmp self.old key.now }
        ensures less { self.new ≡ with_one_less K.cmp self.old key.now }
        ensures each { HasOneMore K.cmp self.new self.old key.now }
    {
        if let Some(held) = self.map.get_mut(key) {
            let stays = *held > 1;
            if stays {
                *held -= 1;
            } else {
                self.map.remove(key);
            }
        }
    }
}

impl<K: Copy + Ord> Counter<K> for Counts<K> {
    ghost Seen = { K };

    ghost seen = { λ k. k };

    ghost cmp = { K.cmp };

    ghost number = { λ es. count_of K.cmp es };

    fn raise(&mut self, room: &mut Room, key: K) -> Result<(), OutOfMemory> {
        Counts::raise(self, room, key)
    }

    fn lower(&mut self, key: K) {
        Counts::lower(self, &key);
    }

    ghost total = { K.Ord.total };
}
