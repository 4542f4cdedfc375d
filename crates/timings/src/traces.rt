// The record of each trace of a file.
ghost use Rattle.std.specs.Prelude.{◌≡◌};

use device_io::Source;
use field_map::FieldMap;
use frame_cut::{Limits, Reading};
use room::Room;
use std::alloc::Global;
use std::fs;
use std::rt::Files;
use trace_record::{Record, record_of};
use volume_loading::Loading;

// What the records of all traces say together.
#[derive(Clone, Copy)]
pub(crate) struct Total {
    pub(crate) samples: u64,
    pub(crate) least: i128,
    pub(crate) greatest: i128,
    pub(crate) sum: i128,
}

// Looks at each trace and makes its record.
fn total_of(alloc: Global, loading: &mut Loading<()>, fields: &FieldMap) -> Option<Total>
    requires { fields.now.extensions ≡ loading.old.volume.head.extensions }
{
    let mut total = Total {
        samples: 0,
        least: 0,
        greatest: 0,
        sum: 0,
    };
    for _before in 0..loading.count() {
        let record = next_record(alloc, loading, fields)?;
        total.samples = total.samples.saturating_add(u64::from(record.number));
        if let Some(amplitudes) = record.amplitudes {
            total.least = total.least.min(amplitudes.least);
            total.greatest = total.greatest.max(amplitudes.greatest);
            total.sum = total.sum.saturating_add(amplitudes.sum);
        }
    }
    Some(total)
}

// The record of the next trace, if there is one and memory for its place.
fn next_record(alloc: Global, loading: &mut Loading<()>, fields: &FieldMap) -> Option<Record>
    requires { fields.now.extensions ≡ loading.old.volume.head.extensions }
    ensures { loading.new.volume ≡ loading.old.volume }
{
    let record = record_of(&loading.next_trace()?, fields);
    loading.push(&mut Room::new(alloc), ()).ok()?;
    Some(record)
}

// The number of traces of the file, and what their records say where they are to be made.
pub(crate) fn count_records<R: Files + AllocGlobal>(
    rt: &R,
    path: &str,
    records: bool,
) -> Option<(u32, Total)> {
    let limits = Limits::new(1 << 40, u32::MAX)?;
    let file = fs::open(rt, path).ok()?;
    let reading = Reading {
        fixed: false,
        opaque: true,
        floats: false,
        order: None,
        samples: None,
        format: None,
        texts: None,
        tail: false,
    };
    let mut loading: Loading<()> = Loading::load(
        &mut Room::new(rt.alloc()),
        &mut Source::new(file),
        reading,
        limits,
    )
    .ok()?;
    let fields = FieldMap::standard(&mut Room::new(rt.alloc()), loading.head().extensions).ok()?;
    let mut total = Total {
        samples: 0,
        least: 0,
        greatest: 0,
        sum: 0,
    };
    if records {
        total = total_of(rt.alloc(), &mut loading, &fields)?;
    }
    Some((loading.count(), total))
}
