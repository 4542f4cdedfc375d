// Where an id stands: first among the numbers of ids in front of groups of chunks, then among the
// chunks.
ghost use Rattle.std.specs.Prelude.{◌≡◌, ℕ, ◌+◌, ◌-◌, ◌*◌, ◌^◌, ◌<◌, ◌≤◌, length, min, slice_index};
ghost use Rattle.std.specs.Vec.{vec_capacity};
ghost use Rattle.trace_seq.specs.Chunks.{ids_of, place_at, size_at};
ghost use Rattle.trace_seq.specs.Fronts.{front, AreFronts};

use crate::chunk::{Chunk, Spot};
use crate::chunk_list::FILL;

/// For how many chunks one number stands.
pub const GROUP: usize = 16;

// How many ids a group has where ids were put behind all others alone, as those of a load are.
const GROUP_IDS: usize = GROUP * FILL;

/// A group of chunks, and how many ids stand in front of it.
#[derive(Clone, Copy)]
pub struct Group {
    pub number: usize,
    pub first: usize,
}

/// The last group that starts at the place or in front of it: first where it is if each has as many
/// ids as usual, then by halves.
pub fn find_group(fronts: &[usize], place: usize) -> Group
    ensures before { result.first ≤ place }
    ensures behind { result.number + 1 < length fronts.now →
        place < slice_index fronts.now (result.number + 1) }
    ensures told { 0 < result.number → slice_index fronts.now result.number ≡ result.first }
    ensures within { 0 < result.number → result.number < length fronts.now }
    ensures start { result.number ≡ 0 → result.first ≡ 0 }
{
    let likely = place / GROUP_IDS;
    let mut number = 0;
    let mut end = fronts.len();
    'halves: while number + 1 < end {
        let middle = next_number(likely, number, end);
        // With no branch, since none could be foretold.
        let is_before = fronts[middle] <= place;
        number = if is_before { middle } else { number };
        end = if is_before { end } else { middle };
    }
    let first = if number == 0 { 0 } else { fronts[number] };
    Group { number, first }
}

// The number to look at next, between two others: the one behind the likely group, then that of the
// likely group, where they lie between these; else the one halfway.
fn next_number(likely: usize, number: usize, end: usize) -> usize
    requires { number + 1 < end }
    ensures above { number < result }
    ensures below { result < end }
{
    if number <= likely && likely < end - 1 {
        // Both are open: the one behind comes first.
        return likely + 1;
    }
    if number < likely && likely < end {
        return likely;
    }
    number + (end - number) / 2
}

/// Where the id at a place stands, from a chunk on that has so many ids in front of it.
pub fn locate(chunks: &[Chunk], from: usize, first: usize, place: usize) -> Spot
    requires first { front chunks.now from ≡ first }
    requires before { first ≤ place }
    requires place { place < length (ids_of chunks.now) }
    ensures place { place_at chunks.now result ≡ place }
    ensures offset { result.offset < size_at chunks.now result.chunk }
    ensures chunk { result.chunk < length chunks.now }
{
    let mut left = place - first;
    for k in from..chunks.len() {
        let size = chunks[k].ids.len();
        if left < size {
            return Spot {
                chunk: k,
                offset: left,
            };
        }
        left -= size;
    }
    unreachable!()
}

/// One id more stands in front of each of the groups from this one on.
pub fn raise(fronts: &mut Vec<usize>, from: usize)
    requires { (g : ℕ) → g < length fronts.old.items → slice_index fronts.old.items g < 2 ^ 64 - 1 }
    ensures length { length fronts.new.items ≡ length fronts.old.items }
    ensures below { (g : ℕ) → g < from →
        slice_index fronts.new.items g ≡ slice_index fronts.old.items g }
    ensures above { (g : ℕ) → from ≤ g → g < length fronts.old.items →
        slice_index fronts.new.items g ≡ slice_index fronts.old.items g + 1 }
    ensures capacity { vec_capacity fronts.old ≤ vec_capacity fronts.new }
{
    raise_each(fronts, from);
}

fn raise_each(fronts: &mut [usize], from: usize)
    requires { (g : ℕ) → g < length fronts.old → slice_index fronts.old g < 2 ^ 64 - 1 }
    ensures length { length fronts.new ≡ length fronts.old }
    ensures below { (g : ℕ) → g < from → slice_index fronts.new g ≡ slice_index fronts.old g }
    ensures above { (g : ℕ) → from ≤ g → g < length fronts.old →
        slice_index fronts.new g ≡ slice_index fronts.old g + 1 }
{
    for g in from..fronts.len() {
        fronts[g] += 1;
    }
}

/// One id less stands in front of each of the groups from this one on.
pub fn lower(fronts: &mut Vec<usize>, from: usize)
    requires { (g : ℕ) → from ≤ g → g < length fronts.old.items →
        0 < slice_index fronts.old.items g }
    ensures length { length fronts.new.items ≡ length fronts.old.items }
    ensures below { (g : ℕ) → g < from →
        slice_index fronts.new.items g ≡ slice_index fronts.old.items g }
    ensures above { (g : ℕ) → from ≤ g → g < length fronts.old.items →
        slice_index fronts.new.items g + 1 ≡ slice_index fronts.old.items g }
    ensures capacity { vec_capacity fronts.old ≤ vec_capacity fronts.new }
{
    lower_each(fronts, from);
}

fn lower_each(fronts: &mut [usize], from: usize)
    requires { (g : ℕ) → from ≤ g → g < length fronts.old → 0 < slice_index fronts.old g }
    ensures length { length fronts.new ≡ length fronts.old }
    ensures below { (g : ℕ) → g < from → slice_index fronts.new g ≡ slice_index fronts.old g }
    ensures above { (g : ℕ) → from ≤ g → g < length fronts.old →
        slice_index fronts.new g + 1 ≡ slice_index fronts.old g }
{
    for g in from..fronts.len() {
        fronts[g] -= 1;
    }
}

/// Counts anew what stands in front of each group.
pub fn count(fronts: &mut Vec<usize>, chunks: &[Chunk])
    requires total { length (ids_of chunks.now) < 2 ^ 64 }
    requires few { 16 * length fronts.old.items ≤ length chunks.now + 15 }
    ensures fronts { AreFronts chunks.now fronts.new.items }
    ensures length { length fronts.new.items ≡ length fronts.old.items }
    ensures capacity { vec_capacity fronts.old ≤ vec_capacity fronts.new }
{
    count_each(fronts, chunks);
}

fn count_each(fronts: &mut [usize], chunks: &[Chunk])
    requires total { length (ids_of chunks.now) < 2 ^ 64 }
    requires few { 16 * length fronts.old ≤ length chunks.now + 15 }
    ensures fronts { AreFronts chunks.now fronts.new }
    ensures length { length fronts.new ≡ length fronts.old }
{
    let mut ids = 0;
    for (k, chunk) in chunks.iter().enumerate() {
        note(fronts, k, ids);
        ids += chunk.ids.len();
    }
}

/// Notes the number of ids in front of a chunk, if a group starts there.
fn note(fronts: &mut [usize], k: usize, ids: usize)
    ensures length { length fronts.new ≡ length fronts.old }
    ensures noted { (g : ℕ) → g < length fronts.old → 16 * g ≡ k →
        slice_index fronts.new g ≡ ids }
    ensures others { (g : ℕ) → 16 * g < k → slice_index fronts.new g ≡ slice_index fronts.old g }
{
    if k % GROUP == 0 && k / GROUP < fronts.len() {
        fronts[k / GROUP] = ids;
    }
}
