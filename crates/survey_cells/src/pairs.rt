// Pairs of cells that are neighbours on a line.
ghost use Rattle.std.specs.Prelude.{◌≡◌, ◌<◌, ◌≤◌, ◌+ℤ◌, ◌-ℤ◌, ◌&&◌, IfOk, IfErr, IfSome, Some, None, length, slice_index_or, IsErr};
ghost use Rattle.std.specs.Ordering.{int_eq};
ghost use Rattle.room.specs.Refusals.{Rises};
ghost use Rattle.position_differences.specs.Commonest.{AreCounted};
ghost use Rattle.survey_cells.specs.Held.{HeldRise};
ghost use Rattle.survey_cells.specs.Neighbours.{held_at, held_beyond, difference_in, difference_beyond as difference_beyond_of, differences, neighbours_from as neighbours_from_of, difference_ahead as difference_ahead_of};

use crate::cells::SurveyCell;
use crate::times::{Times, count_difference, count_lately, places_for_differences};
use position_differences::{Difference, LastDifferences, difference_between};
use room::{OutOfMemory, Room};

// Two cells that are neighbours on a line, and how far the second one's position lies above the
// first one's.
#[derive(Clone, Copy)]
pub(crate) struct Neighbours {
    pub first: SurveyCell,
    pub second: SurveyCell,
    pub difference: Difference,
}

// Pairs that were walked over: how many they are, and how often each difference occurs.
#[derive(Drop)]
pub(crate) struct Walked {
    pub pairs: u64,
    pub counts: Times,
}

// Where a cell is looked for first, and the differences that came last. Both move on with each
// pair: whatever they are, the answers are the same.
#[derive(Clone, Copy)]
pub(crate) struct Walk {
    cursor: usize,
    last: LastDifferences,
}

impl Walk {
    // It looks here first.
    pub(crate) fn from(cursor: usize) -> Walk
        ensures { result.cursor ≡ cursor }
    {
        Walk {
            cursor,
            last: LastDifferences::new(),
        }
    }
}

// The pairs of cells that lie so many inlines and crosslines apart. Takes memory for the
// differences that occur.
pub(crate) fn count_differences(
    room: &mut Room,
    cells: &[SurveyCell],
    apart: (i64, i64),
) -> Result<Walked, OutOfMemory>
    requires { HeldRise cells.now }
    ensures pairs { IfOk result (λ walked. walked.pairs ≡ length (differences cells.now apart)) }
    ensures few { IfOk result (λ walked. walked.pairs ≤ length cells.now) }
    ensures counts { IfOk result (λ walked. AreCounted walked.counts
        (differences cells.now apart)) }
    ensures memory { Rises (IsErr result) room.old room.new }
{
    let mut pairs = 0;
    let mut counts = Times::new(room.alloc());
    let mut lately = places_for_differences();
    let mut walk = Walk::from(0);
    for cell in cells {
        if let Some(difference) = difference_beyond(cells, apart, cell, &mut walk) {
            count_difference(room, &mut lately, &mut counts, difference)?;
            pairs += 1;
        }
    }
    count_lately(room, &lately, &mut counts)?;
    Ok(Walked { pairs, counts })
}

// The difference of the pair that begins at a cell.
#[inline]
pub(crate) fn difference_beyond(
    cells: &[SurveyCell],
    apart: (i64, i64),
    first: &SurveyCell,
    walk: &mut Walk,
) -> Option<Difference>
    requires { HeldRise cells.now }
    ensures { result ≡ difference_beyond_of cells.now apart first.now }
{
    let second = find_beyond(cells, apart, first, &mut walk.cursor)?;
    difference_of(first, &second, &mut walk.last)
}

// The cell with the one that lies so many beyond it, where both have positions.
pub(crate) fn neighbours_from(
    cells: &[SurveyCell],
    apart: (i64, i64),
    first: &SurveyCell,
    walk: &mut Walk,
) -> Option<Neighbours>
    requires { HeldRise cells.now }
    ensures { result ≡ neighbours_from_of cells.now apart first.now }
{
    let second = find_beyond(cells, apart, first, &mut walk.cursor)?;
    let difference = difference_of(first, &second, &mut walk.last)?;
    Some(Neighbours {
        first: *first,
        second,
        difference,
    })
}

// The difference of the pair that begins at a cell, looked for among all.
pub(crate) fn difference_behind(
    cells: &[SurveyCell],
    apart: (i64, i64),
    first: &SurveyCell,
) -> Option<Difference>
    requires { HeldRise cells.now }
    ensures { result ≡ difference_beyond_of cells.now apart first.now }
{
    let mut walk = Walk::from(cells.len());
    difference_beyond(cells, apart, first, &mut walk)
}

// The difference of the pair in front of a pair on its line.
pub(crate) fn difference_ahead(
    cells: &[SurveyCell],
    apart: (i64, i64),
    pair: &Neighbours,
) -> Option<Difference>
    requires { HeldRise cells.now }
    ensures { result ≡ difference_ahead_of cells.now apart pair.now }
{
    match find_place(cells, &place_before(&pair.first, apart)) {
        Ok(i) => difference_behind(cells, apart, &cells[i]),
        Err(_) => None,
    }
}

// How far the second cell's position lies above the first's.
#[inline]
fn difference_of(
    first: &SurveyCell,
    second: &SurveyCell,
    last: &mut LastDifferences,
) -> Option<Difference>
    ensures { result ≡ difference_in first.now second.now }
{
    let from = first.position()?;
    let to = second.position()?;
    Some(difference_between(&from, &to, last))
}

// The cell that lies so many beyond another. The cursor is where to look first, and moves behind
// it: there most are found.
#[inline]
fn find_beyond(
    cells: &[SurveyCell],
    apart: (i64, i64),
    first: &SurveyCell,
    cursor: &mut usize,
) -> Option<SurveyCell>
    requires { HeldRise cells.now }
    ensures { result ≡ held_beyond cells.now apart first.now }
{
    if let Some(cell) = near_cell(cells, apart, first, *cursor) {
        *cursor = cursor.saturating_add(1);
        return Some(cell);
    }
    search_beyond(cells, apart, first, cursor)
}

// The same, looked for among all.
fn search_beyond(
    cells: &[SurveyCell],
    apart: (i64, i64),
    first: &SurveyCell,
    cursor: &mut usize,
) -> Option<SurveyCell>
    requires { HeldRise cells.now }
    ensures { result ≡ held_beyond cells.now apart first.now }
{
    match find_place(cells, &place_beyond(first, apart)) {
        Ok(i) => {
            *cursor = i.saturating_add(1);
            Some(cells[i])
        }
        Err(i) => {
            *cursor = i;
            None
        }
    }
}

// The cell at the cursor, where it lies so many beyond another.
#[inline]
fn near_cell(
    cells: &[SurveyCell],
    apart: (i64, i64),
    first: &SurveyCell,
    cursor: usize,
) -> Option<SurveyCell>
    requires { HeldRise cells.now }
    ensures { IfSome result (λ c. Some c ≡ held_beyond cells.now apart first.now) }
{
    if cursor >= cells.len() {
        return None;
    }
    let cell = cells[cursor];
    if lies_beyond(&cell, apart, first) {
        Some(cell)
    } else {
        None
    }
}

// Whether a cell lies so many beyond another.
#[inline]
fn lies_beyond(cell: &SurveyCell, apart: (i64, i64), first: &SurveyCell) -> bool
    ensures { result ≡ (int_eq cell.now.inline (first.now.inline +ℤ apart.0)
        && int_eq cell.now.crossline (first.now.crossline +ℤ apart.1)) }
{
    lies_above(cell.inline, first.inline, apart.0)
        && lies_above(cell.crossline, first.crossline, apart.1)
}

// Whether the first number is so much more than the other.
#[inline]
fn lies_above(number: i32, other: i32, distance: i64) -> bool
    ensures { result ≡ int_eq number (other +ℤ distance) }
{
    i64::from(number) - i64::from(other) == distance
}

// The inline and crossline that lie so many beyond those of a cell.
fn place_beyond(cell: &SurveyCell, apart: (i64, i64)) -> (i128, i128)
    ensures { result ≡ (cell.now.inline +ℤ apart.0, cell.now.crossline +ℤ apart.1) }
{
    let inline = i128::from(cell.inline) + i128::from(apart.0);
    let crossline = i128::from(cell.crossline) + i128::from(apart.1);
    (inline, crossline)
}

// Those that lie so many in front of them.
fn place_before(cell: &SurveyCell, apart: (i64, i64)) -> (i128, i128)
    ensures { result ≡ (cell.now.inline -ℤ apart.0, cell.now.crossline -ℤ apart.1) }
{
    let inline = i128::from(cell.inline) - i128::from(apart.0);
    let crossline = i128::from(cell.crossline) - i128::from(apart.1);
    (inline, crossline)
}

// Where the cell at an inline and crossline is, or would be.
fn find_place(cells: &[SurveyCell], place: &(i128, i128)) -> Result<usize, usize>
    requires { HeldRise cells.now }
    ensures bound { IfOk result (λ i. i < length cells.now) }
    ensures found { IfOk result (λ i. (d : _) →
        Some (slice_index_or cells.now i d) ≡ held_at cells.now place.now.0 place.now.1) }
    ensures absent { IfErr result (λ i. None ≡ held_at cells.now place.now.0 place.now.1) }
{
    cells.binary_search_by_key(place, |c| key_of(c))
}

fn key_of(cell: &SurveyCell) -> (i128, i128)
    ensures { result ≡ (cell.now.inline, cell.now.crossline) }
{
    (i128::from(cell.inline), i128::from(cell.crossline))
}
