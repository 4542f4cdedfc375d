// Rough groups of cells by their positions, of which most have one cell: such a cell shares its
// position with none. So the cells that have to be sorted are few.
ghost use Rattle.std.specs.Prelude.{◌≡◌, ◌+◌, ◌<◌, ◌≤◌, ◌==◌, cond, min, length, slice_index, map, IfOk, OnOk, IsErr};
ghost use Rattle.room.specs.Refusals.{Rises};
ghost use Rattle.cell_positions.specs.Shared.{placed_cmp, sharing};
ghost use Rattle.cell_positions.specs.InOrder.{in_order};
ghost use Rattle.survey_cells.specs.Standing.{standing_in};
ghost use Rattle.key_counts.specs.Packed.{ratio_in};
ghost use Rattle.survey_cells.specs.Groups.{word_in, group_in, IsCountedBy, is_crowded as is_crowded_in};

use crate::cells::SurveyCell;
use key_counts::PackedRatio;
use room::{OutOfMemory, Room};

// What is left of a packed coordinate without its flags.
const WORDS: u64 = 0x4000_0000_0000_0000;

// The numbers that spread the words of the coordinates over all words: odd ones with bits all over.
pub(crate) const SPREAD_X: u64 = 0x9E37_79B9_7F4A_7C15;

pub(crate) const SPREAD_Y: u64 = 0xC2B2_AE3D_27D4_EB4F;

// Half of the bits of a word.
const HALF: u64 = 0x1_0000_0000;

/// Leaves out most of the cells that share their position with no other one. Takes 4 bytes a cell
/// at most while it does; refused for want of them alone.
pub(crate) fn keep_crowded(room: &mut Room, cells: &mut Vec<SurveyCell>) -> Result<(), OutOfMemory>
    ensures sharing { OnOk result (sharing (in_order placed_cmp (map standing_in cells.new.items))
        ≡ sharing (in_order placed_cmp (map standing_in cells.old.items))) }
    ensures memory { Rises (IsErr result) room.old room.new }
{
    // Of a million cells that all stand elsewhere 390,000 are left, then 85,000, and then 19,000.
    keep_groups(room, cells, 2)?;
    keep_groups(room, cells, 4)?;
    keep_groups(room, cells, 4)?;
    Ok(())
}

// Leaves out the cells that are alone in their group, where there are so many groups for each cell.
fn keep_groups(
    room: &mut Room,
    cells: &mut Vec<SurveyCell>,
    groups_a_cell: u64,
) -> Result<(), OutOfMemory>
    ensures sharing { OnOk result (sharing (in_order placed_cmp (map standing_in cells.new.items))
        ≡ sharing (in_order placed_cmp (map standing_in cells.old.items))) }
    ensures memory { Rises (IsErr result) room.old room.new }
{
    let groups = groups_for(cells.len(), groups_a_cell);
    let counted = count_groups(room, cells, groups)?;
    let sizes = counted.as_slice();
    cells.retain(|c| is_crowded(sizes, groups, c));
    Ok(())
}

// How many groups there are for so many cells.
fn groups_for(cells: usize, groups_a_cell: u64) -> u32 {
    let groups = (cells as u64).saturating_mul(groups_a_cell);
    groups.min(u64::from(u32::MAX)) as u32
}

// How many cells each of so many groups has, counted up to 255.
fn count_groups(room: &mut Room, cells: &[SurveyCell], groups: u32) -> Result<Vec<u8>, OutOfMemory>
    ensures counted { IfOk result (λ sizes.
        IsCountedBy groups (map standing_in cells.now) sizes.items) }
    ensures memory { Rises (IsErr result) room.old room.new }
{
    let mut sizes = room.told(vec![in room.alloc(); 0u8; groups as usize])?;
    for cell in cells {
        count_one(&mut sizes, group_of(cell, groups));
    }
    Ok(sizes)
}

// Counts one cell more in a group that there is.
#[inline]
fn count_one(sizes: &mut [u8], group: usize)
    ensures length { length sizes.new ≡ length sizes.old }
    ensures counts { (g : _) → g < length sizes.old →
        min 2 (slice_index sizes.old g + cond (group == g) 1 0) ≤ slice_index sizes.new g }
{
    if group < sizes.len() {
        sizes[group] = sizes[group].saturating_add(1);
    }
}

// Whether the cell is not alone in its group.
#[inline]
fn is_crowded(sizes: &[u8], groups: u32, cell: &SurveyCell) -> bool
    ensures { result ≡ is_crowded_in groups sizes.now (standing_in cell.now) }
{
    match sizes.get(group_of(cell, groups)) {
        Some(size) => *size > 1,
        None => true,
    }
}

// The group of a cell among so many. Whatever it is, cells at one position have the same. Of
// another number of groups others are in one group.
#[inline]
fn group_of(cell: &SurveyCell, groups: u32) -> usize
    ensures { result ≡ group_in groups (standing_in cell.now) }
{
    let other = 2 * u64::from(groups);
    let x = word_of(cell.x).wrapping_mul(SPREAD_X + other);
    let y = word_of(cell.y).wrapping_mul(SPREAD_Y + other);
    let word = x.wrapping_add(y);
    (word / HALF * u64::from(groups) / HALF) as usize
}

// A coordinate as a word without flags.
#[inline]
fn word_of(coordinate: PackedRatio) -> u64
    ensures { result ≡ word_in (ratio_in coordinate) }
{
    coordinate.bits % WORDS
}
