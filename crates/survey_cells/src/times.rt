// How often each difference of positions occurs.
ghost use Rattle.std.specs.Prelude.{◌≡◌, ◌+◌, ◌^◌, ◌<◌, List, All, [], cond, option_map, OnOk, IsErr};
ghost use Rattle.std.specs.List.Sorted.{IsStrictlySortedBy};
ghost use Rattle.std.specs.Map.{keys_of, values_of};
ghost use Rattle.std.specs.Map.Iter.{ShowsInOrder, deref_pair};
ghost use Rattle.std.specs.Ordering.{is_eq};
ghost use Rattle.room.specs.Refusals.{Rises};
ghost use Rattle.key_counts.specs.Counts.{count_of};
ghost use Rattle.position_differences.specs.Commonest.{oftenest as oftenest_of, commonest as commonest_of, AreCounted};
ghost use Rattle.position_differences.specs.Differences.{difference_cmp};
ghost use Rattle.survey_cells.specs.Lately.{counted_in, held_in};

use crate::groups::{SPREAD_X, SPREAD_Y};
use key_counts::Ratio;
use position_differences::Difference;
use room::{OutOfMemory, Room};
use std::alloc::Global;
use std::collections::BTreeMap;
use std::collections::btree_map::Iter;
use std::marker::Model;

// So many places there are for differences that came lately.
const PLACES: usize = 64;

// What is left of a word of 64 bits divided by this are so many places.
const PLACE: u64 = 0x0400_0000_0000_0000;

/// How often each difference was counted, seen as the list of the differences with their numbers,
/// rising.
#[derive(Drop)]
pub(crate) struct Times {
    map: BTreeMap<Difference, u64>,
}

impl Model for Times {
    ghost use Rattle.std.specs.Prelude.{ℕ, ◌<◌, List, All};
    ghost use Rattle.std.specs.BTreeMap.{values};
    ghost use Rattle.position_differences.specs.declared.difference.Difference.{Difference};

    ghost Value = { List (Difference × ℕ) };

    ghost view = { λ a. a.map.entries };

    ghost invariant = { λ a. All (λ n. 0 < n) (values a.map) };
}

impl Times {
    ghost use Rattle.std.specs.Prelude.{ℕ};
    ghost use Rattle.position_differences.specs.declared.difference.Difference.{Difference};

    /// None. Takes no memory.
    pub(crate) fn new(alloc: Global) -> Times
        ensures { result ≡ [] }
    {
        Times {
            map: BTreeMap::new(alloc),
        }
    }

    /// The differences with their numbers, rising. Takes no memory.
    pub(crate) fn pairs(&self) -> Iter<'_, Difference, u64>
        ensures rest { result ≡ self.now }
        ensures runs { ShowsInOrder (deref_pair {K = Difference} {X = ℕ}) }
        ensures rising { IsStrictlySortedBy difference_cmp (keys_of self.now) }
        ensures positive { All (λ n. 0 < n) (values_of self.now) }
    {
        self.map.iter()
    }

    /// The difference that was counted most often, of several the least. Takes no memory.
    pub(crate) fn commonest(&self) -> Option<Difference>
        ensures { (ds : List _) → AreCounted self.now ds → result ≡ commonest_of ds }
    {
        oftenest(self.pairs())
    }

    // The number of a difference, 0 where it has none.
    fn count(&self, difference: &Difference) -> u64
        ensures { result ≡ count_of difference_cmp self.now difference.now }
    {
        self.map.get(difference).copied().unwrap_or(0)
    }

    /// Counts a difference so often. Takes memory for one that has no number yet; refused for want
    /// of it alone.
    pub(crate) fn raise_by(
        &mut self,
        room: &mut Room,
        difference: Difference,
        times: u64,
    ) -> Result<(), OutOfMemory>
        requires { count_of difference_cmp self.old difference + times < 2 ^ 64 }
        ensures each { OnOk result ((q : _) → count_of difference_cmp self.new q
            ≡ count_of difference_cmp self.old q
            + cond (is_eq (difference_cmp difference q)) times 0) }
        ensures memory { Rises (IsErr result) room.old room.new }
    {
        if times == 0 {
            return Ok(());
        }
        let number = self.count(&difference) + times;
        let inserted = self.map.insert(difference, number);
        room.told_back(inserted)?;
        Ok(())
    }
}

// The difference that was counted most often, of several the first.
fn oftenest(mut pairs: Iter<'_, Difference, u64>) -> Option<Difference>
    ensures { result ≡ option_map (λ e. e.0) (oftenest_of pairs.entry) }
{
    let (first, times) = pairs.next()?;
    let mut most = (*first, *times);
    for (difference, times) in pairs {
        if most.1 < *times {
            most = (*difference, *times);
        }
    }
    Some(most.0)
}

/// Places for the differences that come lately, none of which is counted yet. Along a line of a
/// grid few alternate: each is counted at its place, with no search.
pub(crate) fn places_for_differences() -> [(Difference, u64); PLACES]
    ensures { (q : _) → counted_in result q ≡ 0 }
{
    let none = Ratio::whole(0);
    [(Difference { x: none, y: none }, 0); PLACES]
}

/// Counts a difference once more at its place. One that stands there is counted among all before.
/// Takes memory for one that has no number yet; refused for want of it alone.
pub(crate) fn count_difference(
    room: &mut Room,
    lately: &mut [(Difference, u64)],
    times: &mut Times,
    difference: Difference,
) -> Result<(), OutOfMemory>
    requires { (q : _) → held_in lately.old times.old q + 1 < 2 ^ 64 }
    ensures each { OnOk result ((q : _) → held_in lately.new times.new q
        ≡ held_in lately.old times.old q + cond (is_eq (difference_cmp difference q)) 1 0) }
    ensures memory { Rises (IsErr result) room.old room.new }
{
    let place = place_of(&difference);
    if place >= lately.len() {
        return times.raise_by(room, difference, 1);
    }
    let held = lately[place];
    if held.0 == difference {
        lately[place] = (held.0, held.1 + 1);
        return Ok(());
    }
    times.raise_by(room, held.0, held.1)?;
    lately[place] = (difference, 1);
    Ok(())
}

// A place for a difference: any is right.
fn place_of(difference: &Difference) -> usize {
    let x = difference.x.num.unsigned_abs().wrapping_mul(SPREAD_X);
    let y = difference.y.num.unsigned_abs().wrapping_mul(SPREAD_Y);
    (x.wrapping_add(y) / PLACE) as usize
}

/// Counts those at their places among all. Takes memory for those that have no number yet; refused
/// for want of it alone.
pub(crate) fn count_lately(
    room: &mut Room,
    lately: &[(Difference, u64)],
    times: &mut Times,
) -> Result<(), OutOfMemory>
    requires { (q : _) → held_in lately.now times.old q < 2 ^ 64 }
    ensures each { OnOk result ((q : _) → count_of difference_cmp times.new q
        ≡ held_in lately.now times.old q) }
    ensures memory { Rises (IsErr result) room.old room.new }
{
    for place in lately {
        times.raise_by(room, place.0, place.1)?;
    }
    Ok(())
}
