// What is kept of the rows of a slice.
ghost use Rattle.std.specs.Prelude.{◌≡◌, ◌++◌, map, All, IfOk, OnOk, IsTrue, IsErr};
ghost use Rattle.room.specs.Refusals.{Rises};
ghost use Rattle.num_order.specs.Number.{IsBetween};
ghost use Rattle.trace_record.specs.Facts.{facts_of};
ghost use Rattle.bench_rules.specs.KeptSlices.{kept_of, row_again, rows_again};
ghost use Rattle.time_slice.specs.Fitting.{has_signs, value_fits};
ghost use Rattle.time_slice.specs.Shown.{pair_of};

use crate::cell_walk::CellWalk;
use crate::of_volume::push_row;
use bench_rules::Row;
use num_order::{Kind, Order};
use record_table::Records;
use room::{OutOfMemory, Room};
use sample_codes::Format;
use std::marker::Model;
use std::mem::size_of;

// The position of a row, and its sample, of floats the rank, as a number of 8 bytes: 12 bytes in
// all.
#[derive(Clone, Copy)]
pub(crate) struct KeptRow {
    position: u32,
    sample: [u8; 8],
}

const _: () = prove!(size_of::<KeptRow>() == 12);

impl KeptRow {
    ghost use Rattle.std.specs.Prelude.{◌≡◌};
    ghost use Rattle.num_order.specs.Number.{IsBetween};
    ghost use Rattle.time_slice.specs.Shown.{pair_of};

    fn of(row: Row, signed: bool) -> KeptRow
        requires { IsBetween signed 8 row.value }
        ensures { pair_of signed result ≡ (row.position, row.value) }
    {
        num_order::reads_back();
        let mut sample = [0; 8];
        let kind = Kind { size: 8, signed };
        num_order::write(Order::Little, kind, row.value, &mut sample);
        KeptRow {
            position: row.position,
            sample,
        }
    }

    fn value(self, signed: bool) -> i128
        ensures { result ≡ (pair_of signed self).1 }
    {
        let kind = Kind { size: 8, signed };
        num_order::read(Order::Little, kind, &self.sample)
    }
}

// Rows without their inlines and crosslines, which are those of the traces. Seen as the positions
// with their samples.
#[derive(Drop)]
pub(crate) struct KeptRows {
    signed: bool,
    rows: Vec<KeptRow>,
}

impl Model for KeptRows {
    ghost use Rattle.std.specs.Prelude.{ℕ, ℤ, List, map};
    ghost use Rattle.time_slice.specs.Shown.{pair_of};

    ghost Value = { List (ℕ × ℤ) };

    ghost view = { λ a. map (pair_of a.signed) a.rows.items };
}

impl KeptRows {
    // What is kept of rows whose samples the format has.
    pub(crate) fn of(room: &mut Room, rows: &[Row], format: Format) -> Result<KeptRows, OutOfMemory>
        requires { All (λ r. IsTrue (value_fits format r.value)) rows.now }
        ensures kept { IfOk result (λ kept. kept ≡ kept_of rows.now) }
        ensures memory { Rises (IsErr result) room.old room.new }
    {
        let signed = may_be_signed(format);
        let mut kept = room.told(Vec::with_capacity(room.alloc(), rows.len()))?;
        for row in rows {
            room.told_back(kept.push(KeptRow::of(*row, signed)))?;
        }
        Ok(KeptRows { signed, rows: kept })
    }

    // The rows of which this is kept.
    pub(crate) fn rows(&self, room: &mut Room, records: &Records) -> Result<Vec<Row>, OutOfMemory>
        ensures rows { IfOk result (λ v. v.items ≡ rows_again (map facts_of records.now) self.now) }
        ensures memory { Rises (IsErr result) room.old room.new }
    {
        let mut rows = room.told(Vec::with_capacity(room.alloc(), self.rows.len()))?;
        let mut walk = CellWalk::new(records);
        for kept in &self.rows {
            push_again(room, &mut rows, &mut walk, *kept, self.signed)?;
        }
        Ok(rows)
    }
}

// Whether samples of the format may have values below zero.
fn may_be_signed(format: Format) -> bool
    ensures { result ≡ has_signs format }
{
    match format.values() {
        Some(format) => format.may_be_negative(),
        None => false,
    }
}

// The row of which this is kept at the end of the rows.
fn push_again(
    room: &mut Room,
    rows: &mut Vec<Row>,
    records: &mut CellWalk<'_>,
    kept: KeptRow,
    signed: bool,
) -> Result<(), OutOfMemory>
    ensures rows { OnOk result (rows.new.items ≡ rows.old.items ++
        row_again (map facts_of records.old) (pair_of signed kept)) }
    ensures records { records.new ≡ records.old }
    ensures memory { Rises (IsErr result) room.old room.new }
{
    let place = (kept.position as usize).saturating_sub(1);
    if let Some(cell) = records.get(place) {
        push_row(room, rows, cell, kept.position, Some(kept.value(signed)))?;
    }
    Ok(())
}
