// Counts of whole numbers of each record, in a window where one lies densely, and else in order.
ghost use Rattle.std.specs.Prelude.{◌≡◌, ◌≤◌, ◌^◌, [], length, map, IfOk, IsErr, OnOk};
ghost use Rattle.room.specs.Refusals.{Rises};
ghost use Rattle.range_stats.specs.Whole.{whole_in, AreCounted};
ghost use Rattle.range_stats.specs.declared.whole_counts.WholeQuantity.TheVariants.{Inline, Crossline, Offset};

use record_table::{Reach, Records};
use room::{OutOfMemory, Room};
use trace_record::Record;
use window_counts::{Interval, LineCounts, Window};

// A quantity that is a whole number.
#[derive(Clone, Copy)]
pub(crate) enum WholeQuantity {
    Inline,
    Crossline,
    Offset,
}

impl WholeQuantity {
    // That of a record.
    fn of(self, trace: &Record) -> i32
        ensures { result ≡ whole_in self trace.now }
    {
        match self {
            WholeQuantity::Inline => trace.inline,
            WholeQuantity::Crossline => trace.crossline,
            WholeQuantity::Offset => trace.offset,
        }
    }
}

// How often each inline, crossline and offset occurs among records.
#[derive(Drop)]
pub(crate) struct WholeCounts {
    pub inlines: LineCounts,
    pub crosslines: LineCounts,
    pub offsets: LineCounts,
}

impl WholeCounts {
    // Those of these records. Where each of the three lies densely all are counted in one pass: the
    // records lie far apart, and a pass takes longer than what is counted in it.
    pub(crate) fn of(
        room: &mut Room,
        records: &Records,
        windows: &Windows,
    ) -> Result<WholeCounts, OutOfMemory>
        requires { length records.now ≤ 2 ^ 33 }
        ensures inlines { IfOk result (λ w. AreCounted Inline w.inlines records.now) }
        ensures crosslines { IfOk result (λ w. AreCounted Crossline w.crosslines records.now) }
        ensures offsets { IfOk result (λ w. AreCounted Offset w.offsets records.now) }
        ensures memory { Rises (IsErr result) room.old room.new }
    {
        if windows.inlines.len() == 0
            || windows.crosslines.len() == 0
            || windows.offsets.len() == 0
        {
            return WholeCounts::one_by_one(room, records, windows);
        }
        let mut inlines = LineCounts::within(room, windows.inlines)?;
        let mut crosslines = LineCounts::within(room, windows.crosslines)?;
        let mut offsets = LineCounts::within(room, windows.offsets)?;
        raise_three(room, &mut inlines, &mut crosslines, &mut offsets, records)?;
        Ok(WholeCounts {
            inlines,
            crosslines,
            offsets,
        })
    }

    // The same, with a pass for each of the three.
    fn one_by_one(
        room: &mut Room,
        records: &Records,
        windows: &Windows,
    ) -> Result<WholeCounts, OutOfMemory>
        requires { length records.now ≤ 2 ^ 33 }
        ensures inlines { IfOk result (λ w. AreCounted Inline w.inlines records.now) }
        ensures crosslines { IfOk result (λ w. AreCounted Crossline w.crosslines records.now) }
        ensures offsets { IfOk result (λ w. AreCounted Offset w.offsets records.now) }
        ensures memory { Rises (IsErr result) room.old room.new }
    {
        let inlines = whole_counts(room, records, WholeQuantity::Inline, windows.inlines)?;
        let crosslines = whole_counts(room, records, WholeQuantity::Crossline, windows.crosslines)?;
        let offsets = whole_counts(room, records, WholeQuantity::Offset, windows.offsets)?;
        Ok(WholeCounts {
            inlines,
            crosslines,
            offsets,
        })
    }
}

// Where the inlines, the crosslines and the offsets of records lie densely.
#[derive(Clone, Copy)]
pub(crate) struct Windows {
    inlines: Interval,
    crosslines: Interval,
    offsets: Interval,
}

impl Windows {
    // Those of so many records, which reach so far.
    pub(crate) fn of(reach: &Reach, records: usize) -> Windows {
        Windows {
            inlines: Interval::over(&reach.inlines(), records),
            crosslines: Interval::over(&reach.crosslines(), records),
            offsets: Interval::over(&reach.offsets(), records),
        }
    }
}

// Counts the inline, crossline and offset of each record where none is counted.
fn raise_three(
    room: &mut Room,
    inlines: &mut LineCounts,
    crosslines: &mut LineCounts,
    offsets: &mut LineCounts,
    records: &Records,
) -> Result<(), OutOfMemory>
    requires inlines { inlines.old ≡ [] }
    requires crosslines { crosslines.old ≡ [] }
    requires offsets { offsets.old ≡ [] }
    requires few { length records.now ≤ 2 ^ 33 }
    ensures inlines { OnOk result (AreCounted Inline inlines.new records.now) }
    ensures crosslines { OnOk result (AreCounted Crossline crosslines.new records.now) }
    ensures offsets { OnOk result (AreCounted Offset offsets.new records.now) }
    ensures memory { Rises (IsErr result) room.old room.new }
{
    for trace in records.iter() {
        inlines.raise(room, trace.inline)?;
        crosslines.raise(room, trace.crossline)?;
        offsets.raise(room, trace.offset)?;
    }
    Ok(())
}

// How often each number occurs in these records.
fn whole_counts(
    room: &mut Room,
    records: &Records,
    which: WholeQuantity,
    window: Interval,
) -> Result<LineCounts, OutOfMemory>
    requires { length records.now ≤ 2 ^ 33 }
    ensures counted { IfOk result (λ counts. AreCounted which counts records.now) }
    ensures memory { Rises (IsErr result) room.old room.new }
{
    if window.len() == 0 {
        let keys = keys_of(room, records, which)?;
        return LineCounts::from_keys(room, keys);
    }
    let mut counts = LineCounts::within(room, window)?;
    raise_each(room, &mut counts, records, which)?;
    Ok(counts)
}

// The numbers of the records, in their order.
fn keys_of(
    room: &mut Room,
    records: &Records,
    which: WholeQuantity,
) -> Result<Vec<i32>, OutOfMemory>
    ensures keys { IfOk result (λ keys. keys.items ≡ map (whole_in which) records.now) }
    ensures memory { Rises (IsErr result) room.old room.new }
{
    let made = records.iter().map(|r| which.of(&r)).collect(room.alloc());
    room.told(made)
}

// Counts the number of each record where none is counted.
fn raise_each(
    room: &mut Room,
    counts: &mut LineCounts,
    records: &Records,
    which: WholeQuantity,
) -> Result<(), OutOfMemory>
    requires empty { counts.old ≡ [] }
    requires few { length records.now ≤ 2 ^ 33 }
    ensures counted { OnOk result (AreCounted which counts.new records.now) }
    ensures memory { Rises (IsErr result) room.old room.new }
{
    for trace in records.iter() {
        counts.raise(room, which.of(&trace))?;
    }
    Ok(())
}
