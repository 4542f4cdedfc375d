ghost use Rattle.std.specs.Prelude.{◌≡◌, ◌<◌, ◌≤◌, ◌∷◌, [], ◌++◌, ℕ, ℤ, List, if◌then◌else◌, length, map, All, Some, IfOk, IfErr, OnOk, OnErr, IsTrue, IsFalse, IsErr, IsErrOf};
ghost use Rattle.room.specs.Refusals.{Rises};
ghost use Rattle.frame_cut.specs.Traces.{count_of};
ghost use Rattle.trace_record.specs.Facts.{facts_of};
ghost use Rattle.trace_record.specs.Packed.{record_in};
ghost use Rattle.edit_overlay.specs.CountedVolume.{IsSeen};
ghost use Rattle.edit_overlay.specs.Reads.{HaveAgreed};
ghost use Rattle.lru.specs.LruCache.{lru_cache};
ghost use Rattle.time_slice.specs.Faults.{IsFaultOfSlice, IsOfRead};
ghost use Rattle.time_slice.specs.Fitting.{value_fits};
ghost use Rattle.bench_rules.specs.SlicesOfRecords.{with_sample_of};
ghost use Rattle.bench_rules.specs.Slices.{slice_rows};
ghost use Rattle.bench_rules.specs.KeptSlices.{Cache, AreRightOf, IsAsked, keeps, kept_of, kept_rows, rows_again, is_from, cache_after_change, none_kept, after_slice, after_change};

use crate::kept_rows::KeptRows;
use crate::{SliceFault, rows};
use bench_rules::Row;
use edit_overlay::Overlay;
use lru::LruCache;
use record_table::Records;
use room::{OutOfMemory, Room};
use sample_codes::Format;
use std::marker::Model;
use std::num::NonZeroUsize;
use trace_record::PackedRecord;

/// The slices that were asked last, of a volume under edits. Of each row only its position and its
/// sample are kept, in 12 bytes. Contracts see the entries, the last asked first, each a number
/// with the positions and samples of its rows, and how many there is room for.
#[derive(Drop)]
pub struct SliceCache {
    cache: LruCache<u32, KeptRows>,
}

impl Model for SliceCache {
    ghost use Rattle.bench_rules.specs.KeptSlices.{KeptSlices, kept_slices_code};

    ghost Value = { KeptSlices };

    ghost coded = { kept_slices_code };

    ghost view = { λ a. record { entries = a.cache.entries; capacity = a.cache.cap } };
}

impl SliceCache {
    /// A cache that keeps none, with room for so many slices. Takes memory in step with their
    /// number; refused for want of it alone.
    pub fn new(room: &mut Room, capacity: usize) -> Result<SliceCache, OutOfMemory>
        requires { 1 ≤ capacity }
        ensures none { IfOk result (λ cache. cache ≡ none_kept capacity) }
        ensures memory { Rises (IsErr result) room.old room.new }
    {
        let Some(capacity) = NonZeroUsize::new(capacity) else {
            unreachable!()
        };
        let cache = room.told(LruCache::new(room.alloc(), capacity))?;
        Ok(SliceCache { cache })
    }

    /// Whether slice k is kept. Takes no memory.
    pub fn cached(&self, k: u32) -> bool
        ensures { result ≡ keeps k self.now.entries }
    {
        self.cache.contains(&k)
    }

    /// Slice k, counted from 0, as [`rows`] gives it, which is kept then and comes first. A slice
    /// that is kept already is answered without a look, any other with one at each trace. Each kept
    /// slice is the one that the volume and the records beside its traces give. Takes memory for
    /// the rows and for what is kept of them; refused for want of it, or on disk where a trace
    /// could not be read, and then the same slices are kept, in the same order. The volume stays as
    /// it is in any case.
    pub fn slice(
        &mut self,
        room: &mut Room,
        overlay: &mut Overlay<PackedRecord>,
        k: u32,
    ) -> Result<Vec<Row>, SliceFault>
        requires { HaveAgreed overlay.old.reads → AreRightOf overlay.old.volume.head
            (map record_in overlay.old.payloads) overlay.old.volume.traces self.old.entries }
        ensures rows { IfOk result (λ v. HaveAgreed overlay.new.reads → v.items ≡ slice_rows
            (with_sample_of overlay.old.volume.head k (map record_in overlay.old.payloads)
            overlay.old.volume.traces)) }
        ensures ok { IfOk result (λ v. HaveAgreed overlay.new.reads →
            self.new ≡ after_slice self.old k v.items) }
        ensures asked { IfOk result (λ v. IsAsked self.old self.new k v.items) }
        ensures err { OnErr result (self.new ≡ self.old) }
        ensures seen { IsSeen overlay.old overlay.new
            (if keeps k self.old.entries then 0 else count_of overlay.old.volume) }
        ensures read { IfErr result (λ fault. IsOfRead fault → IsTrue overlay.old.loaded.on_disk
            × (0 < count_of overlay.old.volume) × IsFalse (keeps k self.old.entries)) }
        ensures reads_tell { IfErr result (IsFaultOfSlice overlay.old.reads overlay.new.reads) }
        ensures memory { Rises (IsErrOf result SliceFault.OutOfMemory) room.old room.new }
    {
        if self.cached(k) {
            let kept = self.answer_kept(room, &Records::new(overlay.payloads()), k)?;
            return Ok(kept);
        }
        let rows = rows(room, overlay, k)?;
        self.keep(room, k, rows.as_slice(), overlay.head().format)?;
        Ok(rows)
    }

    /// Forgets each kept slice whose number is that of one of so many samples from k on. The others
    /// stay as they are, in their order. Takes one step for each kept slice, and no memory.
    pub fn forget(&mut self, k: u32, many: usize)
        ensures { self.new ≡ after_change self.old k many }
    {
        forget_numbers(&mut self.cache, k, many);
    }

    /// Forgets each kept slice. Takes no memory.
    pub fn clear(&mut self)
        ensures { self.new ≡ none_kept self.old.capacity }
    {
        self.cache.clear();
    }

    // A kept slice from what is kept of it, which comes first then.
    fn answer_kept(
        &mut self,
        room: &mut Room,
        records: &Records,
        k: u32,
    ) -> Result<Vec<Row>, OutOfMemory>
        requires { IsTrue (keeps k self.old.entries) }
        ensures rows { (rows : List Row) → kept_rows k self.old.entries ≡ Some (kept_of rows) →
            IfOk result (λ v. v.items ≡ rows_again (map facts_of records.now) (kept_of rows)) }
        ensures ok { (rows : List Row) → kept_rows k self.old.entries ≡ Some (kept_of rows) →
            OnOk result (self.new ≡ after_slice self.old k rows) }
        ensures err { OnErr result (self.new ≡ self.old) }
        ensures memory { Rises (IsErr result) room.old room.new }
    {
        // Read for the proof alone, which learns that no number is kept twice.
        let _count = self.cache.len();
        let Some(kept) = self.cache.peek(&k) else {
            unreachable!()
        };
        let rows = kept.rows(room, records)?;
        self.cache.promote(&k);
        Ok(rows)
    }

    // Keeps a slice that is not kept, whose samples the format has.
    fn keep(
        &mut self,
        room: &mut Room,
        k: u32,
        rows: &[Row],
        format: Format,
    ) -> Result<(), OutOfMemory>
        requires new { IsFalse (keeps k self.old.entries) }
        requires fits { All (λ r. IsTrue (value_fits format r.value)) rows.now }
        ensures ok { OnOk result (self.new ≡ after_slice self.old k rows.now) }
        ensures err { OnErr result (self.new ≡ self.old) }
        ensures memory { Rises (IsErr result) room.old room.new }
    {
        // Read for the proof alone, which learns that there is room for one.
        let _count = self.cache.len();
        let kept = KeptRows::of(room, rows, format)?;
        room.told_back(self.cache.put(k, kept))?;
        Ok(())
    }
}

// Forgets the entries whose numbers are those of so many samples from k on. Each entry is the last
// once, and comes first again where it stays, so that those that stay have their order.
fn forget_numbers(cache: &mut LruCache<u32, KeptRows>, k: u32, many: usize)
    ensures { cache.new ≡ lru_cache (cache_after_change k many cache.old.entries) cache.old.cap }
{
    for _ in 0..cache.len() {
        turn(cache, k, many);
    }
}

// The last entry goes, where its number is that of one of so many samples from k on, and comes
// first else.
fn turn(cache: &mut LruCache<u32, KeptRows>, k: u32, many: usize)
    ensures turned { (es : Cache) (e : ℕ × List (ℕ × ℤ)) → cache.old.entries ≡ es ++ e ∷ [] →
        cache.new.entries ≡ (if is_from k many e.0 then es else (e ∷ es)) }
    ensures capacity { cache.new.cap ≡ cache.old.cap }
{
    // Read for the proof alone, which learns that no number is kept twice.
    let _count = cache.len();
    let Some((number, _)) = cache.peek_lru() else {
        return;
    };
    let number = *number;
    if is_among(k, many, number) {
        cache.pop_lru();
    } else {
        cache.promote(&number);
    }
}

// Whether the number is that of one of so many samples from k on.
fn is_among(k: u32, many: usize, number: u32) -> bool
    ensures { result ≡ is_from k many number }
{
    number >= k && ((number - k) as usize) < many
}
