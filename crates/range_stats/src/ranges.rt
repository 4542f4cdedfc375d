ghost use Rattle.std.specs.Prelude.{◌≡◌, OnOk, OnErr, IsErr, IsOk};
ghost use Rattle.std.specs.Ordering.{int_cmp};
ghost use Rattle.room.specs.Refusals.{Rises};
ghost use Rattle.key_counts.specs.Counts.{count_of};
ghost use Rattle.key_counts.specs.Numbers.{IsSame, IsMoreBy, HasRoom as HasRoomFor, Holds};
ghost use Rattle.key_counts.specs.RatioOrder.{ratio_cmp};
ghost use Rattle.key_counts.specs.Ends.{IsSpan};
ghost use Rattle.range_stats.specs.Extremes.{whole_count};

use crate::Quantity;
use crate::coordinate_counts::CoordinateCounts;
use crate::key_lists::{CoordinateKeys, coordinate_keys};
use crate::keys::Keys;
use crate::whole_counts::{WholeCounts, Windows};
use key_counts::{Ratio, lower_any, lower_both, raise_any, raise_both};
use record_table::{Reach, Records, Running};
use room::{OutOfMemory, Room};
use std::alloc::Global;
use trace_record::Record;
use window_counts::LineCounts;

/// The least and the greatest inline, crossline, offset, x and y of traces that come and go. Adding
/// or removing a trace takes time by the logarithm of the number of traces.
#[derive(Drop)]
pub struct Ranges {
    records: u64,
    inlines: LineCounts,
    crosslines: LineCounts,
    offsets: LineCounts,
    coordinates_x: CoordinateCounts,
    coordinates_y: CoordinateCounts,
}

impl Running for Ranges {
    ghost use Rattle.range_stats.specs.RangeKeys.{keys_of_ranges};
    ghost use Rattle.range_stats.specs.OfRanges.{tally_of_ranges};

    ghost counted = { keys_of_ranges };

    ghost tally = { tally_of_ranges };

    fn new(alloc: Global) -> Ranges {
        Ranges {
            records: 0,
            inlines: LineCounts::new(alloc),
            crosslines: LineCounts::new(alloc),
            offsets: LineCounts::new(alloc),
            coordinates_x: CoordinateCounts::new(alloc),
            coordinates_y: CoordinateCounts::new(alloc),
        }
    }

    fn from_records(
        room: &mut Room,
        records: &Records,
        reach: &Reach,
    ) -> Result<Ranges, OutOfMemory> {
        let CoordinateKeys { x, y } = coordinate_keys(room, records)?;
        let windows = Windows::of(reach, records.len());
        let WholeCounts {
            inlines,
            crosslines,
            offsets,
        } = WholeCounts::of(room, records, &windows)?;
        let coordinates_x = CoordinateCounts::from_keys(room, x)?;
        let coordinates_y = CoordinateCounts::from_keys(room, y)?;
        Ok(Ranges {
            records: records.len() as u64,
            inlines,
            crosslines,
            offsets,
            coordinates_x,
            coordinates_y,
        })
    }

    fn add(&mut self, room: &mut Room, trace: &Record) -> Result<(), OutOfMemory> {
        self.raise(room, &Keys::of(trace))?;
        self.records += 1;
        Ok(())
    }

    fn remove(&mut self, trace: &Record) {
        self.lower(&Keys::of(trace));
        self.records -= 1;
    }

    fn add_beside(
        &mut self,
        room: &mut Room,
        trace: &Record,
        other: &Record,
    ) -> Result<(), OutOfMemory> {
        self.raise(room, &Keys::beside(trace, other))?;
        self.records += 1;
        Ok(())
    }

    fn remove_beside(&mut self, trace: &Record, other: &Record) {
        self.lower(&Keys::beside(trace, other));
        self.records -= 1;
    }
}

impl Ranges {
    ghost use Rattle.std.specs.Prelude.{◌+◌, ◌≤◌};
    ghost use Rattle.trace_record.specs.Keys.{Key};
    ghost use Rattle.range_stats.specs.OfTally.{IsRangeIn};
    ghost use Rattle.range_stats.specs.OfKeys.{times_among};
    ghost use Rattle.range_stats.specs.OfRanges.{count_in_ranges, HasRoom, tally_of_ranges};

    /// The least and the greatest value of one number of the traces, none without traces. Takes no
    /// memory.
    pub fn range(&self, which: Quantity) -> Option<(Ratio, Ratio)>
        ensures { IsRangeIn which (tally_of_ranges self.now) result }
    {
        match which {
            Quantity::Inline => whole_span(&self.inlines),
            Quantity::Crossline => whole_span(&self.crosslines),
            Quantity::Offset => whole_span(&self.offsets),
            Quantity::X => self.coordinates_x.span(),
            Quantity::Y => self.coordinates_y.span(),
        }
    }

    // Counts the keys once more, or none of them where a growth is refused.
    fn raise(&mut self, room: &mut Room, keys: &Keys) -> Result<(), OutOfMemory>
        requires { HasRoom self.old keys.now }
        ensures ok { OnOk result ((k : Key) →
            count_in_ranges self.new k ≡ count_in_ranges self.old k + times_among keys.now k) }
        ensures err { OnErr result ((k : Key) →
            count_in_ranges self.new k ≡ count_in_ranges self.old k) }
        ensures held { ((k : Key) → times_among keys.now k ≤ count_in_ranges self.old k) →
            IsOk result }
        ensures records { self.new.records ≡ self.old.records }
        ensures memory { Rises (IsErr result) room.old room.new }
    {
        raise_lines(
            room,
            &mut self.inlines,
            &mut self.crosslines,
            &mut self.offsets,
            keys,
        )?;
        if let Err(error) = raise_both(
            room,
            &mut self.coordinates_x,
            keys.x,
            &mut self.coordinates_y,
            keys.y,
        ) {
            lower_lines(
                &mut self.inlines,
                &mut self.crosslines,
                &mut self.offsets,
                keys,
            );
            return Err(error);
        }
        Ok(())
    }

    // Counts the keys once less.
    fn lower(&mut self, keys: &Keys)
        requires { (k : Key) → times_among keys.now k ≤ count_in_ranges self.old k }
        ensures less { (k : Key) →
            count_in_ranges self.old k ≡ count_in_ranges self.new k + times_among keys.now k }
        ensures records { self.new.records ≡ self.old.records }
    {
        lower_lines(
            &mut self.inlines,
            &mut self.crosslines,
            &mut self.offsets,
            keys,
        );
        lower_both(
            &mut self.coordinates_x,
            keys.x,
            &mut self.coordinates_y,
            keys.y,
        );
    }
}

// The least and the greatest of whole numbers, as ratios.
fn whole_span(counts: &LineCounts) -> Option<(Ratio, Ratio)>
    ensures { IsSpan ratio_cmp (whole_count counts.now) result }
{
    let (least, greatest) = counts.span()?;
    Some((Ratio::whole(least), Ratio::whole(greatest)))
}

// Counts the inline, crossline and offset once more, or none of them where a growth is refused.
fn raise_lines(
    room: &mut Room,
    inlines: &mut LineCounts,
    crosslines: &mut LineCounts,
    offsets: &mut LineCounts,
    keys: &Keys,
) -> Result<(), OutOfMemory>
    requires room_inline { HasRoomFor (λ k. k) int_cmp (count_of int_cmp inlines.old)
        keys.now.inline }
    requires room_crossline { HasRoomFor (λ k. k) int_cmp (count_of int_cmp crosslines.old)
        keys.now.crossline }
    requires room_offset { HasRoomFor (λ k. k) int_cmp (count_of int_cmp offsets.old)
        keys.now.offset }
    ensures ok_inline { OnOk result (IsMoreBy (λ k. k) int_cmp (count_of int_cmp inlines.old)
        (count_of int_cmp inlines.new) keys.now.inline) }
    ensures ok_crossline { OnOk result (IsMoreBy (λ k. k) int_cmp
        (count_of int_cmp crosslines.old) (count_of int_cmp crosslines.new)
        keys.now.crossline) }
    ensures ok_offset { OnOk result (IsMoreBy (λ k. k) int_cmp (count_of int_cmp offsets.old)
        (count_of int_cmp offsets.new) keys.now.offset) }
    ensures err_inline { OnErr result
        (IsSame (count_of int_cmp inlines.old) (count_of int_cmp inlines.new)) }
    ensures err_crossline { OnErr result
        (IsSame (count_of int_cmp crosslines.old) (count_of int_cmp crosslines.new)) }
    ensures err_offset { OnErr result
        (IsSame (count_of int_cmp offsets.old) (count_of int_cmp offsets.new)) }
    ensures held { Holds (λ k. k) int_cmp (count_of int_cmp inlines.old) keys.now.inline →
        Holds (λ k. k) int_cmp (count_of int_cmp crosslines.old) keys.now.crossline →
        Holds (λ k. k) int_cmp (count_of int_cmp offsets.old) keys.now.offset → IsOk result }
    ensures memory { Rises (IsErr result) room.old room.new }
{
    raise_both(room, inlines, keys.inline, crosslines, keys.crossline)?;
    if let Err(error) = raise_any(room, offsets, keys.offset) {
        lower_both(inlines, keys.inline, crosslines, keys.crossline);
        return Err(error);
    }
    Ok(())
}

// Counts the inline, crossline and offset once less.
fn lower_lines(
    inlines: &mut LineCounts,
    crosslines: &mut LineCounts,
    offsets: &mut LineCounts,
    keys: &Keys,
)
    requires has_inline { Holds (λ k. k) int_cmp (count_of int_cmp inlines.old) keys.now.inline }
    requires has_crossline { Holds (λ k. k) int_cmp (count_of int_cmp crosslines.old)
        keys.now.crossline }
    requires has_offset { Holds (λ k. k) int_cmp (count_of int_cmp offsets.old) keys.now.offset }
    ensures inline { IsMoreBy (λ k. k) int_cmp (count_of int_cmp inlines.new)
        (count_of int_cmp inlines.old) keys.now.inline }
    ensures crossline { IsMoreBy (λ k. k) int_cmp (count_of int_cmp crosslines.new)
        (count_of int_cmp crosslines.old) keys.now.crossline }
    ensures offset { IsMoreBy (λ k. k) int_cmp (count_of int_cmp offsets.new)
        (count_of int_cmp offsets.old) keys.now.offset }
{
    lower_both(inlines, keys.inline, crosslines, keys.crossline);
    lower_any(offsets, keys.offset);
}
