ghost use Rattle.std.specs.Prelude.{◌≡◌, ◌+◌, ◌^◌, ◌<◌, [], map, OnOk, OnErr, IsOk, IfOk, IsErr, ◌≤◌};
ghost use Rattle.room.specs.Refusals.{Rises};
ghost use Rattle.key_counts.specs.Counts.{count_of, HasOneMore};
ghost use Rattle.key_counts.specs.Ends.{IsLeast, IsGreatest, IsSpan};
ghost use Rattle.key_counts.specs.Rising.{Shows, times_in};

use crate::interval::Interval;
use crate::listing::{listed, merged};
use crate::offset_rectangle::OffsetRectangle;
use crate::rectangle::Rectangle;
use crate::slots::Slots;
use crate::wide_interval::WideInterval;
use crate::window::{Extent, Window};
use key_counts::{Counter, Counts, FromCount};
use room::{OutOfMemory, Room};
use std::alloc::Global;
use std::marker::Model;

/// How often each key was counted, seen as the keys with their numbers, in some order. A key that
/// has a place in the window is counted there, each other in order. It keeps its allocator.
#[derive(Drop)]
pub struct WindowCounts<K: Copy + Ord, W: Window<K>> {
    window: W,
    slots: Slots,
    outside: Counts<K>,
}

/// Counts of inlines, of crosslines or of offsets.
pub type LineCounts = WindowCounts<i32, Interval>;

/// Counts of samples.
pub type SampleCounts = WindowCounts<i128, WideInterval>;

/// Counts of pairs of inline and crossline.
pub type CellCounts = WindowCounts<(i32, i32), Rectangle>;

/// Counts of triples of inline, crossline and offset.
pub type TripleCounts = WindowCounts<(i32, i32, i32), OffsetRectangle>;

impl<K: Copy + Ord, W: Window<K>> Model for WindowCounts<K, W> {
    ghost use Rattle.std.specs.Prelude.{ℕ, List, ◌++◌};
    ghost use Rattle.window_counts.specs.Window.{entries, IsApart};

    ghost Value = { List (K × ℕ) };

    ghost view = { λ a. entries (W.key_of a.window) a.slots ++ a.outside };

    ghost invariant = { λ a. IsApart K.cmp (W.size a.window) (W.place a.window) a.slots a.outside };
}

impl<K: Copy + Ord, W: Window<K>> WindowCounts<K, W> {
    /// No key, and no window. Takes no memory.
    pub fn new(alloc: Global) -> WindowCounts<K, W>
        ensures { result ≡ [] }
    {
        WindowCounts {
            window: W::none(),
            slots: Slots::empty(alloc),
            outside: Counts::new(alloc),
        }
    }

    /// No key, and this window. Takes memory for the window.
    pub fn within(room: &mut Room, mut window: W) -> Result<WindowCounts<K, W>, OutOfMemory>
        ensures none { IfOk result (λ v. v ≡ []) }
        ensures memory { Rises (IsErr result) room.old room.new }
    {
        window.prepare(room.alloc());
        let slots = Slots::new(room, window.len())?;
        Ok(WindowCounts {
            window,
            slots,
            outside: Counts::new(room.alloc()),
        })
    }

    // Adds a row of places for a key above all others, where the window can grow so, the row that
    // was added last is in use, and no key is outside, where it might lie in the new row. Where
    // memory is refused, the key stays outside.
    fn make_room(&mut self, room: &mut Room, key: K)
        ensures same { self.new ≡ self.old }
        ensures memory { room.old ≤ room.new }
    {
        if self.window.can_grow(key)
            && self.outside.is_empty()
            && self.is_in_use()
            && self.slots.grow(room, self.window.row_len()).is_ok()
        {
            self.window.grow(key);
        }
    }

    // Whether about half of the places in the row that was added last have a key. One row is looked
    // at, so that a survey of many rows costs as many looks as it has places.
    fn is_in_use(&self) -> bool {
        let places = usize::min(self.window.added_len(), self.window.row_len());
        places as u64 / 2 <= self.slots.held_in_last(places)
    }

    /// How often each of these keys occurs among them. A window has a place for each where they lie
    /// densely. Takes memory for the window, or for the counts in order that stand in its place;
    /// refused for want of it alone.
    pub fn from_keys(room: &mut Room, keys: Vec<K>) -> Result<WindowCounts<K, W>, OutOfMemory>
        ensures numbers { IfOk result (λ v. (q : K) →
            count_of K.cmp v q ≡ times_in K.cmp keys.items q) }
        ensures memory { Rises (IsErr result) room.old room.new }
    {
        let window = W::over(&extent_of::<K, W::Extent>(&keys), keys.len());
        if window.len() == 0 {
            return WindowCounts::in_order(room, keys);
        }
        let mut counts = WindowCounts::within(room, window)?;
        counts.raise_each(room, &keys)?;
        Ok(counts)
    }

    // The same with no window.
    fn in_order(room: &mut Room, keys: Vec<K>) -> Result<WindowCounts<K, W>, OutOfMemory>
        ensures numbers { IfOk result (λ v. (q : K) →
            count_of K.cmp v q ≡ times_in K.cmp keys.items q) }
        ensures memory { Rises (IsErr result) room.old room.new }
    {
        let outside = Counts::from_keys(room, keys)?;
        Ok(WindowCounts {
            window: W::none(),
            slots: Slots::empty(room.alloc()),
            outside,
        })
    }

    // Raises the keys where nothing is counted.
    fn raise_each(&mut self, room: &mut Room, keys: &[K]) -> Result<(), OutOfMemory>
        requires { self.old ≡ [] }
        ensures numbers { OnOk result ((q : K) →
            count_of K.cmp self.new q ≡ times_in K.cmp keys.now q) }
        ensures memory { Rises (IsErr result) room.old room.new }
    {
        for key in keys {
            self.raise(room, *key)?;
        }
        Ok(())
    }

    /// How many places the window has, those of added rows among them. Takes no memory.
    pub fn places(&self) -> usize {
        self.window.len()
    }

    /// The number at the key, 0 where it has none. Takes no memory.
    pub fn count(&self, key: K) -> u64
        ensures { result ≡ count_of K.cmp self.now key }
    {
        match self.window.place_of(key) {
            Some(place) => self.slots.number(place),
            None => self.outside.count(&key),
        }
    }

    /// Counts the key once more. Takes memory for a key that is not held and has no place, and
    /// leaves all as it was where the growth is refused. For a key above a rectangle it may take
    /// memory for a row of places, or for as many as there are; where that is refused, the key is
    /// counted outside.
    pub fn raise(&mut self, room: &mut Room, key: K) -> Result<(), OutOfMemory>
        requires { count_of K.cmp self.old key + 1 < 2 ^ 64 }
        ensures ok { OnOk result (HasOneMore K.cmp self.old self.new key) }
        ensures err { OnErr result (self.new ≡ self.old) }
        ensures held { 0 < count_of K.cmp self.old key → IsOk result }
        ensures memory { Rises (IsErr result) room.old room.new }
    {
        self.make_room(room, key);
        match self.window.place_of(key) {
            Some(place) => {
                self.slots.raise(place);
                Ok(())
            }
            None => self.outside.raise(room, key),
        }
    }

    /// Counts the key once less. Takes no memory.
    pub fn lower(&mut self, key: K)
        requires { 0 < count_of K.cmp self.old key }
        ensures { HasOneMore K.cmp self.new self.old key }
    {
        match self.window.place_of(key) {
            Some(place) => self.slots.lower(place),
            None => self.outside.lower(&key),
        }
    }

    /// The least key. Takes no memory.
    pub fn least(&self) -> Option<K>
        ensures { IsLeast K.cmp (count_of K.cmp self.now) result }
    {
        let Some(place) = self.slots.first() else {
            return self.outside.least();
        };
        let key = self.window.key_at(place);
        match self.outside.least() {
            Some(other) => Some(key.min(other)),
            None => Some(key),
        }
    }

    /// The greatest key. Takes no memory.
    pub fn greatest(&self) -> Option<K>
        ensures { IsGreatest K.cmp (count_of K.cmp self.now) result }
    {
        let Some(place) = self.slots.last() else {
            return self.outside.greatest();
        };
        let key = self.window.key_at(place);
        match self.outside.greatest() {
            Some(other) => Some(key.max(other)),
            None => Some(key),
        }
    }

    /// The least and the greatest key. Takes no memory.
    pub fn span(&self) -> Option<(K, K)>
        ensures { IsSpan K.cmp (count_of K.cmp self.now) result }
    {
        let least = self.least()?;
        let greatest = self.greatest()?;
        Some((least, greatest))
    }

    /// The keys with their numbers as a list, rising. Takes memory for the list and, where keys are
    /// counted outside the window, for those within and those outside.
    pub fn list<T: FromCount<K>>(&self, room: &mut Room) -> Result<Vec<T>, OutOfMemory>
        ensures shows { IfOk result (λ list. Shows K.cmp (count_of K.cmp self.now)
            (map T.count list.items)) }
        ensures memory { Rises (IsErr result) room.old room.new }
    {
        if self.outside.is_empty() {
            return listed(room, &self.window, &self.slots);
        }
        let inside = listed::<K, W, (K, u64)>(room, &self.window, &self.slots)?;
        let outside = self.outside.list::<(K, u64)>(room)?;
        merged(room, &inside, &outside)
    }
}

impl<K: Copy + Ord, W: Window<K>> Counter<K> for WindowCounts<K, W> {
    ghost Seen = { K };

    ghost seen = { λ k. k };

    ghost cmp = { K.cmp };

    ghost number = { λ es. count_of K.cmp es };

    fn raise(&mut self, room: &mut Room, key: K) -> Result<(), OutOfMemory> {
        WindowCounts::raise(self, room, key)
    }

    fn lower(&mut self, key: K) {
        WindowCounts::lower(self, key);
    }

    ghost total = { K.Ord.total };
}

// How far the keys reach.
fn extent_of<K: Copy, E: Extent<K>>(keys: &[K]) -> E {
    let mut extent = E::none();
    for key in keys {
        extent.include(*key);
    }
    extent
}
