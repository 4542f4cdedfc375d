// The rows of a table in order.
ghost use Rattle.std.specs.Prelude.{◌≡◌, ◌≢◌, ℕ, length, map, All, IfOk, IsErr};
ghost use Rattle.std.specs.List.{range_with_len};
ghost use Rattle.std.specs.List.Sorted.{IsPermutation};
ghost use Rattle.std.specs.Ordering.{is_lt};
ghost use Rattle.room.specs.Refusals.{Rises};
ghost use Rattle.bench_rules.specs.Sorted.{are_in_front, in_order, is_in_front};
ghost use Rattle.many_traces.specs.Arranged.{row_near};

use bench_rules::Table;
use room::{OutOfMemory, Room};
use std::cmp::Ordering;

/// The rows of the table, each by its number, counted from 0, in the order of their numbers; rows
/// with the same numbers stand as they stood. Of the numbers of a row those fall whose item of
/// `falling` is true. All rows are of one length. Refused for want of memory alone.
pub fn rows_in_order(
    room: &mut Room,
    table: &Table,
    falling: &[bool],
) -> Result<Vec<u32>, OutOfMemory>
    requires { (width : ℕ) × All (λ row. length row.1 ≡ width) table.now }
    ensures order { IfOk result (λ rows. in_order falling.now table.now
        ≡ map (row_near table.now) rows.items) }
    ensures permutation { IfOk result (λ rows. IsPermutation
        (range_with_len 0 (length table.now)) rows.items) }
    ensures memory { Rises (IsErr result) room.old room.new }
{
    let mut rows = counted(room, table.count())?;
    match rows.sort_by(|row, other| compare_rows(table, falling, *row, *other)) {
        Ok(()) => Ok(rows),
        Err(refused) => room.told(Err(refused)),
    }
}

// The numbers from 0 on, so many of them.
pub(crate) fn counted(room: &mut Room, count: u32) -> Result<Vec<u32>, OutOfMemory>
    ensures numbers { IfOk result (λ numbers. numbers.items ≡ range_with_len 0 count) }
    ensures memory { Rises (IsErr result) room.old room.new }
{
    let mut numbers = room.told(Vec::with_capacity(room.alloc(), count as usize))?;
    for number in 0..count {
        room.told_back(numbers.push(number))?;
    }
    Ok(numbers)
}

// How a row stands to another. A sort may ask of any two numbers, and one past the last row stands
// for that row.
fn compare_rows(table: &Table, falling: &[bool], row: u32, other: u32) -> Ordering
    ensures { is_lt result ≡ are_in_front falling.now (row_near table.now row).1
        (row_near table.now other).1 }
{
    compare(
        falling,
        numbers_near(table, row),
        numbers_near(table, other),
    )
}

// The numbers of a row, or of the last row where there are fewer.
fn numbers_near(table: &Table, row: u32) -> &[i128]
    ensures { result.now ≡ (row_near table.now row).1 }
{
    let count = table.count();
    if count == 0 {
        return &[];
    }
    let (_, numbers) = table.row(row.min(count - 1));
    numbers
}

// How numbers stand to others: the first two that differ tell.
fn compare(falling: &[bool], numbers: &[i128], others: &[i128]) -> Ordering
    ensures { is_lt result ≡ are_in_front falling.now numbers.now others.now }
{
    let count = falling.len().min(numbers.len()).min(others.len());
    for k in 0..count {
        if numbers[k] != others[k] {
            return towards(falling[k], numbers[k], others[k]);
        }
    }
    Ordering::Equal
}

// How two numbers that differ stand to one another.
fn towards(falls: bool, number: i128, other: i128) -> Ordering
    requires { number ≢ other }
    ensures { is_lt result ≡ is_in_front falls number other }
{
    if (number < other) == falls {
        Ordering::Greater
    } else {
        Ordering::Less
    }
}
