// The numbers at some places of one trace.
ghost use Rattle.std.specs.Prelude.{◌≡◌, ◌+◌, ◌≤◌, ◌++◌, IfOk, IfErr, IsTrue, Some, is_some, length, option_map};
ghost use Rattle.std.specs.Vec.{vec_len, vec_capacity};
ghost use Rattle.trace_view.specs.Shown.{bytes_of, head_of};
ghost use Rattle.frame_cut.specs.Traces.{is_trace, trace_at};
ghost use Rattle.edit_overlay.specs.CountedVolume.{IsSeen};
ghost use Rattle.edit_overlay.specs.Reads.{HaveAgreed, IsFaultOfLook};
ghost use Rattle.bench_rules.specs.ManyTraces.{each_of};
ghost use Rattle.bench_rules.specs.Tables.{row_of};
ghost use Rattle.many_traces.specs.Fields.{number_in};

use bench_rules::{Field, place_in_trace};
use edit_overlay::{Overlay, ReadFault};
use field_map::{FieldMap, Place};
use trace_record::PackedRecord;
use trace_view::TraceView;

// Puts the numbers at the places of a trace behind others, for which there is room; false where the
// trace lacks one of the places.
fn push_numbers(trace: &TraceView<'_>, places: &[Place], numbers: &mut Vec<i128>) -> bool
    requires room { vec_len numbers.old + length places.now ≤ vec_capacity numbers.old }
    ensures there { result ≡ is_some (row_of (head_of trace.now) places.now
        (bytes_of trace.now)) }
    ensures row { IsTrue result → option_map (λ row. numbers.old.items ++ row)
        (row_of (head_of trace.now) places.now (bytes_of trace.now)) ≡ Some numbers.new.items }
    ensures count { IsTrue result → vec_len numbers.new ≡ vec_len numbers.old
        + length places.now }
    ensures room { vec_capacity numbers.old ≤ vec_capacity numbers.new }
{
    for place in places {
        let Some(number) = trace.value(*place) else {
            return false;
        };
        let Ok(()) = numbers.push(number) else {
            unreachable!()
        };
    }
    true
}

// Whether the trace has the places of all fields.
fn has_fields(trace: &TraceView<'_>, map: &FieldMap, fields: &[Field]) -> bool
    ensures { result ≡ is_some (each_of
        (number_in (head_of trace.now) (bytes_of trace.now) map.now.pairs) fields.now) }
{
    for field in fields {
        if number_of(trace, map, field).is_none() {
            return false;
        }
    }
    true
}

// The number of a field of the trace.
fn number_of(trace: &TraceView<'_>, map: &FieldMap, field: &Field) -> Option<i128>
    ensures { result ≡ number_in (head_of trace.now) (bytes_of trace.now) map.now.pairs
        field.now }
{
    trace.value(place_in_trace(map, field)?)
}

/// Puts the numbers at the places of trace p behind others, for which there is room; false where
/// the trace lacks one of the places. One look. Takes no memory. On disk refused where the trace
/// could not be read.
pub fn push_row(
    overlay: &mut Overlay<PackedRecord>,
    p: u32,
    places: &[Place],
    numbers: &mut Vec<i128>,
) -> Result<bool, ReadFault>
    requires trace { IsTrue (is_trace overlay.old.volume p) }
    requires room { vec_len numbers.old + length places.now ≤ vec_capacity numbers.old }
    ensures there { IfOk result (λ there. HaveAgreed overlay.new.reads → there ≡ is_some
        (row_of overlay.old.volume.head places.now (trace_at overlay.old.volume p))) }
    ensures row { IfOk result (λ there. HaveAgreed overlay.new.reads → IsTrue there →
        option_map (λ row. numbers.old.items ++ row) (row_of overlay.old.volume.head places.now
        (trace_at overlay.old.volume p)) ≡ Some numbers.new.items) }
    ensures count { IfOk result (λ there. IsTrue there → vec_len numbers.new
        ≡ vec_len numbers.old + length places.now) }
    ensures room { vec_capacity numbers.old ≤ vec_capacity numbers.new }
    ensures seen { IsSeen overlay.old overlay.new 1 }
    ensures read { IfErr result (λ _. IsTrue overlay.old.loaded.on_disk) }
    ensures reads_tell { IfErr result (IsFaultOfLook overlay.old.reads overlay.new.reads) }
{
    let Some(trace) = overlay.look(p)? else {
        unreachable!()
    };
    Ok(push_numbers(&trace, places, numbers))
}

/// Whether trace p has the places of all fields. One look. Takes no memory. On disk refused where
/// the trace could not be read.
pub fn has_row(
    overlay: &mut Overlay<PackedRecord>,
    map: &FieldMap,
    p: u32,
    fields: &[Field],
) -> Result<bool, ReadFault>
    requires { IsTrue (is_trace overlay.old.volume p) }
    ensures there { IfOk result (λ there. HaveAgreed overlay.new.reads → there ≡ is_some (each_of
        (number_in overlay.old.volume.head (trace_at overlay.old.volume p) map.now.pairs)
        fields.now)) }
    ensures seen { IsSeen overlay.old overlay.new 1 }
    ensures read { IfErr result (λ _. IsTrue overlay.old.loaded.on_disk) }
    ensures reads_tell { IfErr result (IsFaultOfLook overlay.old.reads overlay.new.reads) }
{
    let Some(trace) = overlay.look(p)? else {
        unreachable!()
    };
    Ok(has_fields(&trace, map, fields))
}
