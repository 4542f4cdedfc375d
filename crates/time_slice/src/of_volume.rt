ghost use Rattle.std.specs.Prelude.{◌≡◌, ◌<◌, ◌++◌, length, map, All, IfOk, IfErr, IfSome, OnOk, IsTrue, IsErr, IsErrOf};
ghost use Rattle.room.specs.Refusals.{Rises};
ghost use Rattle.frame_cut.specs.Traces.{count_of, is_trace, trace_at};
ghost use Rattle.sample_codes.specs.Formats.{value_width, sample_value, sample_fits};
ghost use Rattle.trace_view.specs.Shown.{head_of, bytes_of};
ghost use Rattle.trace_view.specs.Values.{sample_of};
ghost use Rattle.trace_record.specs.Packed.{record_in};
ghost use Rattle.edit_overlay.specs.CountedVolume.{after_look, IsSeen};
ghost use Rattle.edit_overlay.specs.Reads.{Follow, HaveAgreed, IsFaultOfLook};
ghost use Rattle.time_slice.specs.Faults.{IsFaultOfSlice, IsOfRead};
ghost use Rattle.time_slice.specs.Fitting.{value_fits};
ghost use Rattle.time_slice.specs.Shown.{row_at};
ghost use Rattle.bench_rules.specs.SlicesOfRecords.{with_sample_of};
ghost use Rattle.bench_rules.specs.Slices.{rows_from, slice_rows};

use crate::SliceFault;
use bench_rules::Row;
use edit_overlay::{Overlay, ReadFault};
use field_map::TRACE_HEADER_BYTES;
use frame_cut::Head;
use num_order::Order;
use room::{OutOfMemory, Room};
use sample_codes::ValueFormat;
use trace_record::PackedRecord;
use trace_view::TraceView;

/// Slice k, counted from 0: a row for each trace that has sample k, where samples have values, in
/// rising order by inline, crossline and position. Inline and crossline are those of the record
/// that stands beside the trace. One pass over them, with one look at each trace, which reads the
/// one sample by its place; then the rows are sorted where they stand. Takes memory for a row for
/// each trace; refused for want of it, or on disk where a trace could not be read. The volume stays
/// as it is in any case.
pub fn rows(
    room: &mut Room,
    overlay: &mut Overlay<PackedRecord>,
    k: u32,
) -> Result<Vec<Row>, SliceFault>
    ensures rows { IfOk result (λ v. HaveAgreed overlay.new.reads → v.items ≡ slice_rows
        (with_sample_of overlay.old.volume.head k (map record_in overlay.old.payloads)
        overlay.old.volume.traces)) }
    ensures fits { IfOk result (λ v.
        All (λ r. IsTrue (value_fits overlay.old.volume.head.format r.value)) v.items) }
    ensures seen { IsSeen overlay.old overlay.new (count_of overlay.old.volume) }
    ensures read { IfErr result (λ fault. IsOfRead fault → IsTrue overlay.old.loaded.on_disk
        × (0 < count_of overlay.old.volume)) }
    ensures reads_tell { IfErr result (IsFaultOfSlice overlay.old.reads overlay.new.reads) }
    ensures memory { Rises (IsErrOf result SliceFault.OutOfMemory) room.old room.new }
{
    let mut rows = rows_in_place(room, overlay, k)?;
    rows.sort_unstable();
    Ok(rows)
}

// A row for each trace that has sample k, in the order of the traces.
fn rows_in_place(
    room: &mut Room,
    overlay: &mut Overlay<PackedRecord>,
    k: u32,
) -> Result<Vec<Row>, SliceFault>
    ensures rows { IfOk result (λ v. HaveAgreed overlay.new.reads → v.items ≡ rows_from 1
        (with_sample_of overlay.old.volume.head k (map record_in overlay.old.payloads)
        overlay.old.volume.traces)) }
    ensures fits { IfOk result (λ v.
        All (λ r. IsTrue (value_fits overlay.old.volume.head.format r.value)) v.items) }
    ensures seen { IsSeen overlay.old overlay.new (count_of overlay.old.volume) }
    ensures read { IfErr result (λ fault. IsOfRead fault → IsTrue overlay.old.loaded.on_disk
        × (0 < count_of overlay.old.volume)) }
    ensures reads_tell { IfErr result (IsFaultOfSlice overlay.old.reads overlay.new.reads) }
    ensures memory { Rises (IsErrOf result SliceFault.OutOfMemory) room.old room.new }
{
    // Room for all at once: a list that grows is copied again and again, each time to fresh memory.
    let count = overlay.count();
    let mut rows = room.told(Vec::with_capacity(room.alloc(), count as usize))?;
    let near = usual_place(overlay.head(), k);
    for at in 0..count {
        let p = at + 1;
        overlay.read_ahead(p, near);
        let packed = overlay.payload(p);
        let sample = sample_in(overlay, p, k)?;
        push_row(room, &mut rows, packed.cell(), p, sample)?;
    }
    Ok(rows)
}

// Sample k of trace p, where it has one. One look.
#[inline]
fn sample_in(overlay: &mut Overlay<PackedRecord>, p: u32, k: u32) -> Result<Option<i128>, ReadFault>
    requires { IsTrue (is_trace overlay.old.volume p) }
    ensures sample { IfOk result (λ sample. HaveAgreed overlay.new.reads →
        sample ≡ sample_of overlay.old.volume.head (trace_at overlay.old.volume p) k) }
    ensures fits { IfOk result (λ sample.
        IfSome sample (λ v. IsTrue (value_fits overlay.old.volume.head.format v))) }
    ensures looked { overlay.new ≡ after_look overlay.old overlay.new.reads }
    ensures reads { Follow overlay.old.reads overlay.new.reads }
    ensures read { IfErr result (λ _. IsTrue overlay.old.loaded.on_disk) }
    ensures reads_tell { IfErr result (IsFaultOfLook overlay.old.reads overlay.new.reads) }
{
    let Some(trace) = overlay.look(p)? else {
        unreachable!()
    };
    Ok(sample_that_fits(&trace, k))
}

// Where sample k stands in a trace that has as many header extensions as the file allows, counted
// from 0.
fn usual_place(head: Head, k: u32) -> u64 {
    let headers = TRACE_HEADER_BYTES as u64 * (1 + u64::from(head.extensions));
    headers + u64::from(head.format.width()) * u64::from(k)
}

// The row of the trace of this inline and crossline at a position at the end of the rows, where it
// has the sample.
pub(crate) fn push_row(
    room: &mut Room,
    rows: &mut Vec<Row>,
    cell: (i32, i32),
    position: u32,
    sample: Option<i128>,
) -> Result<(), OutOfMemory>
    ensures rows { OnOk result (rows.new.items ≡ rows.old.items ++
        row_at position cell sample) }
    ensures memory { Rises (IsErr result) room.old room.new }
{
    if let Some(value) = sample {
        room.told_back(rows.push(Row {
            inline: cell.0,
            crossline: cell.1,
            position,
            value,
        }))?;
    }
    Ok(())
}

// The value of sample k of the trace. Read by its bytes, since they tell that its format has the
// number.
fn sample_that_fits(trace: &TraceView<'_>, k: u32) -> Option<i128>
    ensures sample { result ≡ sample_of (head_of trace.now) (bytes_of trace.now) k }
    ensures fits { IfSome result (λ v. IsTrue (value_fits (head_of trace.now).format v)) }
{
    if k >= trace.sample_count() {
        return None;
    }
    let head = trace.head();
    let format = head.format.values()?;
    let headers = TRACE_HEADER_BYTES as u64 * (1 + u64::from(trace.extension_count()));
    let width = u64::from(format.width());
    let at = headers + width * u64::from(k);
    if let Some(bytes) = trace.plain(at, at + width) {
        return Some(number_of(head.order, format, bytes));
    }
    let mut sample = [0; 8];
    let bytes = &mut sample[..width as usize];
    trace.read(at, bytes);
    Some(number_of(head.order, format, bytes))
}

// The number of the bytes of a sample, which its format has.
fn number_of(order: Order, format: ValueFormat, bytes: &[u8]) -> i128
    requires { length bytes.now ≡ value_width format }
    ensures value { result ≡ sample_value order format bytes.now }
    ensures fits { IsTrue (sample_fits format result) }
{
    format.decode(order, bytes)
}
