ghost use Rattle.std.specs.Prelude.{◌≡◌, ◌<◌, ◌^◌, ◌+◌};
ghost use Rattle.bench_rules.specs.Tables.{position_in, AreAbove};

use std::marker::Model;

/// Numbers of traces: for each trace its position, counted from 1, and as many numbers as a row
/// has. The traces follow one another, or are listed.
#[derive(Drop)]
pub struct Table {
    first: u32,
    count: u32,
    listed: Option<Vec<u32>>,
    width: usize,
    numbers: Vec<i128>,
}

impl Model for Table {
    ghost use Rattle.std.specs.Prelude.{ℕ, ℤ, List};
    ghost use Rattle.bench_rules.specs.Tables.{rows_in, IsWhole};

    ghost Value = { List (ℕ × List ℤ) };

    ghost view = { rows_in };

    ghost invariant = { IsWhole };
}

impl Table {
    ghost use Rattle.std.specs.Prelude.{◌≡◌, ◌<◌, ◌≤◌, ◌^◌, ◌+◌, ◌*◌, length, Some, slice_get};
    ghost use Rattle.bench_rules.specs.Tables.{rows_at, rows_from};

    /// So many rows of this width, the first of them of trace `first`. Takes no memory.
    pub fn new(first: u32, count: u32, width: usize, numbers: Vec<i128>) -> Table
        requires numbers { length numbers.items ≡ width * count }
        requires last { first + count ≤ 2 ^ 32 }
        ensures { result ≡ rows_from first count width numbers.items }
    {
        Table {
            first,
            count,
            listed: None,
            width,
            numbers,
        }
    }

    /// A row of this width for each of these traces. Takes no memory.
    pub fn listed(traces: Vec<u32>, width: usize, numbers: Vec<i128>) -> Table
        requires numbers { length numbers.items ≡ width * length traces.items }
        requires few { length traces.items < 2 ^ 32 }
        ensures { result ≡ rows_at traces.items width numbers.items }
    {
        Table {
            first: 0,
            count: traces.len() as u32,
            listed: Some(traces),
            width,
            numbers,
        }
    }

    /// The number of rows.
    pub fn count(&self) -> u32
        ensures { result ≡ length self.now }
    {
        self.count
    }

    /// The position of row k, counted from 0, and its numbers.
    pub fn row(&self, k: u32) -> (u32, &[i128])
        requires { k < length self.now }
        ensures { slice_get self.now k ≡ Some (result.0, result.1.now) }
    {
        let position = position_of_row(&self.listed, self.first, k);
        let numbers = self.numbers.as_slice();
        let start = self.width * k as usize;
        (position, &numbers[start..start + self.width])
    }
}

// The position of row k, counted from 0: of the traces that are listed, or of those from a first
// one on.
fn position_of_row(listed: &Option<Vec<u32>>, first: u32, k: u32) -> u32
    requires listed { AreAbove k listed.now }
    requires last { first + k < 2 ^ 32 }
    ensures { result ≡ position_in listed.now first k }
{
    match listed {
        Some(traces) => traces[k as usize],
        None => first + k,
    }
}
