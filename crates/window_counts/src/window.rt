ghost use Rattle.std.specs.Prelude.{◌≡◌, ℕ, ◌+◌, ◌<◌, Option};
ghost use Rattle.std.specs.Bool.{OnTrue};
ghost use Rattle.window_counts.specs.Window.{ArePlaced};

use std::alloc::Global;

/// Keys that have a place each, counted from 0 in their order. A key without one is outside. A row
/// of places may be added behind the others, for keys above theirs.
pub trait Window<K: Copy + Ord>: Drop {
    /// How far keys reach.
    type Extent: Extent<K>;

    // How many places there are.
    ghost size: { Self → ℕ };

    // The place of a key, where it has one.
    ghost place: { Self → K → Option ℕ };

    // The key of a place.
    ghost key_of: { Self → ℕ → K };

    // How many places a row has.
    ghost row: { Self → ℕ };

    // A row can be added for the key and those that stand in one row with it.
    ghost CanGrow: { Self → K → Type 0 };

    /// No place. Takes no memory.
    fn none() -> Self
        ensures { size result ≡ 0 };

    /// Places for so many keys that reach so far, where these lie densely: at most 2 places for
    /// each key, and 1,024; else none. Takes no memory. Which places there are costs time and
    /// memory, and changes no number.
    fn over(extent: &Self::Extent, keys: usize) -> Self;

    /// How many places. Takes no memory.
    fn len(&self) -> usize
        ensures { result ≡ size self.now };

    /// The place of the key, where it has one. Takes no memory.
    fn place_of(&self, key: K) -> Option<usize>
        ensures { result ≡ place self.now key };

    /// Makes ready for rows to be added. Takes 4 bytes of memory a row; where they are refused,
    /// none can be.
    fn prepare(&mut self, alloc: Global)
        ensures size { size self.new ≡ size self.old }
        ensures keys { (p : ℕ) → key_of self.new p ≡ key_of self.old p };

    /// Whether a row for the key is to be added behind the others: the key lies above them, in a
    /// place of such a row, and fewer rows were added than there were at first. What it answers
    /// costs time and memory, and changes no number. Takes no memory.
    fn can_grow(&self, key: K) -> bool
        ensures { OnTrue result (CanGrow self.now key) };

    /// How many places a row has. Takes no memory.
    fn row_len(&self) -> usize
        ensures { result ≡ row self.now };

    /// How many places the rows that were added have. Takes no memory.
    fn added_len(&self) -> usize;

    /// Adds the row. Takes no memory.
    fn grow(&mut self, key: K)
        requires { CanGrow self.old key }
        ensures size { size self.new ≡ size self.old + row self.old }
        ensures kept { (p : ℕ) → p < size self.old → key_of self.new p ≡ key_of self.old p };

    /// The key of a place. Takes no memory.
    fn key_at(&self, at: usize) -> K
        requires { at < size self.now }
        ensures { result ≡ key_of self.now at };

    ghost placed: { (w : Self) → ArePlaced K.cmp (size w) (place w) (key_of w) };
}

/// How far keys reach. It takes no memory.
pub trait Extent<K: Copy>: Drop {
    /// No key.
    fn none() -> Self;

    /// One key more.
    fn include(&mut self, key: K);
}
