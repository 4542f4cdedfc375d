// The traces that conditions choose by the records beside them, which are gone over in order.
ghost use Rattle.std.specs.Prelude.{◌≡◌, ◌+◌, ◌-◌, ◌≤◌, true, drop, map, slice_get, Some, IfOk, IsErr};
ghost use Rattle.std.specs.List.{range_with_len};
ghost use Rattle.room.specs.Refusals.{Rises};
ghost use Rattle.field_map.specs.Pairs.{Pairs};
ghost use Rattle.frame_cut.specs.Traces.{count_of};
ghost use Rattle.std.specs.Prelude.{List};
ghost use Rattle.bench_rules.specs.declared.test.Test.{Test as test_of_places};
ghost use Rattle.bench_rules.specs.Conditions.{chosen_among, AreRising};
ghost use Rattle.chosen_traces.specs.RecordTests.{AreTestsOf, HasRecords};

use crate::choosing::keep;
use crate::record_tests::{RecordTest, hold};
use bench_rules::has_float_samples;
use edit_overlay::Overlay;
use record_table::{Records, RecordsIter};
use room::{OutOfMemory, Room};
use trace_record::{PackedRecord, Record};

// A record is found by its number in the time that it takes to go over so many in order.
const FOUND: u32 = 16;

// Those of traces a to b whose records meet all conditions. Looks at no trace.
pub(crate) fn chosen_by_records(
    room: &mut Room,
    overlay: &Overlay<PackedRecord>,
    a: u32,
    b: u32,
    tests: &[RecordTest],
) -> Result<Vec<u32>, OutOfMemory>
    requires first { 1 ≤ a }
    requires range { a ≤ b }
    requires last { b ≤ count_of overlay.now.volume }
    ensures ok { IfOk result (λ traces. (fields : Pairs) → (conditions : List test_of_places) →
        AreTestsOf fields conditions tests.now → HasRecords overlay.now fields → chosen_among
        overlay.now.volume conditions (range_with_len a (b + 1 - a)) ≡ Some traces.items) }
    ensures rising { IfOk result (λ traces. AreRising a b traces.items) }
    ensures memory { Rises (IsErr result) room.old room.new }
{
    let floats = has_float_samples(overlay);
    let records = Records::new(overlay.payloads());
    let in_order = (a - 1) / FOUND <= b - a;
    let mut left = records_from(&records, a - 1, in_order);
    let mut traces = Vec::new(room.alloc());
    for k in 0..b - a + 1 {
        let place = (a - 1 + k) as usize;
        let Some(record) = record_at(&records, &mut left, place, in_order) else {
            return Ok(traces);
        };
        keep(room, &mut traces, a + k, hold(floats, &record, tests))?;
    }
    Ok(traces)
}

// The records, where they are gone over in order those from the place on.
fn records_from<'a>(records: &'a Records<'a>, place: u32, in_order: bool) -> RecordsIter<'a>
    ensures { in_order ≡ true → result ≡ drop place records.now }
{
    let mut left = records.iter();
    if !in_order {
        return left;
    }
    for gone in 0..place {
        left.next();
    }
    left
}

// The record at the place: the next one, where they are gone over in order.
fn record_at(
    records: &Records<'_>,
    left: &mut RecordsIter<'_>,
    place: usize,
    in_order: bool,
) -> Option<Record>
    requires { in_order ≡ true → left.old ≡ drop place records.now }
    ensures record { result ≡ slice_get records.now place }
    ensures left { in_order ≡ true → left.new ≡ drop (place + 1) records.now }
{
    if in_order {
        left.next()
    } else {
        records.get(place)
    }
}
