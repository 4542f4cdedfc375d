// The cells of traces, each with its first trace and where that stands.
ghost use Rattle.std.specs.Prelude.{◌≡◌, ◌<◌, ◌^◌, IfOk, IfSome, length, map, IsErr};
ghost use Rattle.room.specs.Refusals.{Rises};
ghost use Rattle.key_counts.specs.Parts.{FitsCoordinate};
ghost use Rattle.trace_record.specs.Facts.{facts_of};
ghost use Rattle.cell_positions.specs.Cells.{each_from};
ghost use Rattle.cell_positions.specs.Placed.{position_of, positions_of};
ghost use Rattle.survey_cells.specs.Held.{cell_in, place_in, HeldRise, AreCellsOf};

use key_counts::PackedRatio;
use position_differences::Position;
use record_table::Records;
use room::{OutOfMemory, Room};
use std::mem::size_of;
use trace_record::Record;

/// A cell with its first trace and where that stands, in 32 bytes. Traces count from 1, in the
/// order of their file; where x and y are both 0 there is no position.
#[derive(Clone, Copy)]
pub struct SurveyCell {
    pub inline: i32,
    pub crossline: i32,
    pub trace: u32,
    pub x: PackedRatio,
    pub y: PackedRatio,
}

const _: () = prove!(size_of::<SurveyCell>() == 32);

impl SurveyCell {
    // That of a trace, as a cell of its own.
    fn of(record: &Record, trace: u32) -> SurveyCell
        ensures inline { result.inline ≡ record.now.inline }
        ensures crossline { result.crossline ≡ record.now.crossline }
        ensures trace { result.trace ≡ trace }
        ensures place { place_in result ≡ position_of (facts_of record.now) }
    {
        SurveyCell {
            inline: record.inline,
            crossline: record.crossline,
            trace,
            x: PackedRatio::of(record.x, false, false),
            y: PackedRatio::of(record.y, false, false),
        }
    }

    // Its position.
    #[inline]
    pub(crate) fn position(&self) -> Option<Position>
        ensures value { result ≡ place_in self.now }
        ensures fits { IfSome result (λ p. FitsCoordinate p.x × FitsCoordinate p.y) }
    {
        let x = self.x.ratio();
        let y = self.y.ratio();
        if x.num == 0 && y.num == 0 {
            return None;
        }
        Some(Position { x, y })
    }
}

/// The cells of the traces, rising by inline and crossline. Takes 32 bytes a trace; refused for
/// want of them alone.
pub fn find_cells(room: &mut Room, records: &Records) -> Result<Vec<SurveyCell>, OutOfMemory>
    requires { length records.now < 2 ^ 32 }
    ensures cells { IfOk result (λ cells. AreCellsOf (map facts_of records.now) cells.items) }
    ensures rise { IfOk result (λ cells. HeldRise cells.items) }
    ensures memory { Rises (IsErr result) room.old room.new }
{
    let mut traces = list_traces(room, records)?;
    traces.sort_unstable_by_key(|c| (c.inline, (c.crossline, c.trace)));
    traces.dedup_by_key(|c| (c.inline, c.crossline));
    Ok(traces)
}

// Each trace as a cell of its own.
fn list_traces(room: &mut Room, records: &Records) -> Result<Vec<SurveyCell>, OutOfMemory>
    requires { length records.now < 2 ^ 32 }
    ensures cells { IfOk result (λ cells. map cell_in cells.items ≡
        each_from 1 (map facts_of records.now)) }
    ensures places { IfOk result (λ cells. map place_in cells.items ≡
        positions_of (map facts_of records.now)) }
    ensures memory { Rises (IsErr result) room.old room.new }
{
    let mut list = room.told(Vec::with_capacity(room.alloc(), records.len()))?;
    let mut trace = 0;
    for record in records.iter() {
        trace += 1;
        room.told_back(list.push(SurveyCell::of(&record, trace)))?;
    }
    Ok(list)
}
