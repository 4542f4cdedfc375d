// Records that stand in for as many others, from a place on: first the new ones are counted beside
// the old ones, since that may be refused, and then the old ones are counted no longer. What a new
// record and the old one have in common is not touched.
ghost use Rattle.std.specs.Prelude.{◌≡◌, ◌+◌, ◌<◌, ◌≤◌, length, map, take, drop, slice_get, slice_index_or, All, IfSome, OnOk, OnErr, IsOk, IsErr};
ghost use Rattle.room.specs.Refusals.{Rises};
ghost use Rattle.trace_record.specs.Facts.{facts_of};
ghost use Rattle.live_reports.specs.Exchanged.{with_records, tallies_with_new, AreFewTogether};
ghost use Rattle.live_reports.specs.Reports.{HasEachKey};
ghost use Rattle.live_reports.specs.Tallies.{tallies_of, tallies_of_records, SameEach};

use crate::values::Values;
use record_table::{RecordList, Records};
use room::{OutOfMemory, Room};
use trace_record::Record;

// New record k.
pub(crate) fn new_at(new: &RecordList, k: usize) -> Record
    requires { k < length new.now }
    ensures { result ≡ slice_index_or new.now k result }
{
    let Some(record) = new.get(k) else {
        unreachable!()
    };
    record
}

// Counts the new records beside the others, or none of them where a growth is refused.
pub(crate) fn add_each(
    room: &mut Room,
    values: &mut Values,
    records: &Records,
    place: usize,
    new: &RecordList,
) -> Result<(), OutOfMemory>
    requires place { place + length new.now ≤ length records.now }
    requires few { AreFewTogether records.now new.now }
    requires counted { SameEach (tallies_of values.old)
        (tallies_of_records (map facts_of records.now)) }
    ensures ok { OnOk result (SameEach (tallies_of values.new)
        (tallies_with_new records.now place new.now 0)) }
    ensures err { OnErr result (SameEach (tallies_of values.new)
        (tallies_of_records (map facts_of records.now))) }
    ensures held { All (HasEachKey records.now) new.now → IsOk result }
    ensures memory { Rises (IsErr result) room.old room.new }
{
    for k in (0..new.len()).rev() {
        if let Err(error) = add_at(room, values, records, place, new, k) {
            remove_from(values, records, place, new, k + 1);
            return Err(error);
        }
    }
    Ok(())
}

// Counts new record k beside those that follow it and the others.
fn add_at(
    room: &mut Room,
    values: &mut Values,
    records: &Records,
    place: usize,
    new: &RecordList,
    k: usize,
) -> Result<(), OutOfMemory>
    requires there { k < length new.now }
    requires place { place + length new.now ≤ length records.now }
    requires few { AreFewTogether records.now (drop k new.now) }
    requires counted { SameEach (tallies_of values.old)
        (tallies_with_new records.now place new.now (k + 1)) }
    ensures ok { OnOk result (SameEach (tallies_of values.new)
        (tallies_with_new records.now place new.now k)) }
    ensures err { OnErr result (SameEach (tallies_of values.new) (tallies_of values.old)) }
    ensures held { IfSome (slice_get new.now k) (HasEachKey records.now) → IsOk result }
    ensures memory { Rises (IsErr result) room.old room.new }
{
    let Some(old) = records.get(place + k) else {
        unreachable!()
    };
    let record = new_at(new, k);
    values.add_beside(room, &record, &old)
}

// No longer counts the new records from new record k on.
fn remove_from(values: &mut Values, records: &Records, place: usize, new: &RecordList, k: usize)
    requires place { place + length new.now ≤ length records.now }
    requires few { AreFewTogether records.now new.now }
    requires counted { SameEach (tallies_of values.old)
        (tallies_with_new records.now place new.now k) }
    ensures { SameEach (tallies_of values.new) (tallies_of_records (map facts_of records.now)) }
{
    for at in k..new.len() {
        remove_at(values, records, place, new, at);
    }
}

// No longer counts new record k.
fn remove_at(values: &mut Values, records: &Records, place: usize, new: &RecordList, k: usize)
    requires there { k < length new.now }
    requires place { place + length new.now ≤ length records.now }
    requires few { AreFewTogether records.now (drop k new.now) }
    requires counted { SameEach (tallies_of values.old)
        (tallies_with_new records.now place new.now k) }
    ensures { SameEach (tallies_of values.new)
        (tallies_with_new records.now place new.now (k + 1)) }
{
    let Some(old) = records.get(place + k) else {
        unreachable!()
    };
    let record = new_at(new, k);
    values.remove_beside(&record, &old);
}

// No longer counts the records in whose places the new ones, which are counted, come to stand.
pub(crate) fn drop_each(values: &mut Values, records: &Records, place: usize, new: &RecordList)
    requires place { place + length new.now ≤ length records.now }
    requires few { AreFewTogether records.now new.now }
    requires counted { SameEach (tallies_of values.old)
        (tallies_with_new records.now place new.now 0) }
    ensures { SameEach (tallies_of values.new)
        (tallies_of_records (map facts_of (with_records records.now place new.now))) }
{
    for k in 0..new.len() {
        drop_at(values, records, place, new, k);
    }
}

// No longer counts the record in whose place new record k comes to stand, as those in front of it
// do already.
fn drop_at(values: &mut Values, records: &Records, place: usize, new: &RecordList, k: usize)
    requires there { k < length new.now }
    requires place { place + length new.now ≤ length records.now }
    requires few { AreFewTogether (with_records records.now place (take k new.now))
        (drop k new.now) }
    requires counted { SameEach (tallies_of values.old)
        (tallies_with_new (with_records records.now place (take k new.now)) place new.now k) }
    ensures few { AreFewTogether (with_records records.now place (take (k + 1) new.now))
        (drop (k + 1) new.now) }
    ensures counted { SameEach (tallies_of values.new) (tallies_with_new
        (with_records records.now place (take (k + 1) new.now)) place new.now (k + 1)) }
{
    let Some(old) = records.get(place + k) else {
        unreachable!()
    };
    let record = new_at(new, k);
    values.remove_beside(&old, &record);
}
