// What a volume gives to those who keep slices of it.
ghost use Rattle.std.specs.Prelude.{◌≡◌, ◌<◌, ◌≤◌, ℕ, false, length, option_map, if◌then◌else◌, IsTrue, IsFalse, IfOk, IfErr, OnOk, OnErr, IsErrOf};
ghost use Rattle.room.specs.Refusals.{Rises};
ghost use Rattle.field_map.specs.Binding.{HasGeometry};
ghost use Rattle.field_map.specs.declared.place.TheConstants.{TRACE_HEADER_BYTES};
ghost use Rattle.frame_cut.specs.Cuts.{IsCut};
ghost use Rattle.frame_cut.specs.Traces.{count_of, trace_at, trace_of};
ghost use Rattle.frame_cut.specs.Volume.{bytes_of};
ghost use Rattle.edit_overlay.specs.CountedVolume.{RisesAtMost};
ghost use Rattle.edit_overlay.specs.Reads.{Follow, HaveAgreed};
ghost use Rattle.bench_rules.specs.KeptSlices.{after_slice, kept_numbers, IsAsked};
ghost use Rattle.time_slice.specs.Faults.{IsFaultOfSlice, IsOfRead};
ghost use Rattle.bench_rules.specs.Kept.{cell_of, is_kept};
ghost use Rattle.bench_rules.specs.Live.{AreSlicesOf};
ghost use Rattle.bench_rules.specs.Reports.{slice_in};

use crate::live_volume::LiveVolume;
use bench_rules::Row;
use room::Room;
use time_slice::{SliceCache, SliceFault};

impl LiveVolume {
    /// Where each read of the loaded bytes agreed, the volume is the one cut of its own bytes. In
    /// any case each trace has a main header, and the field map binds each geometry name to a place
    /// that each trace has. Does nothing: its contract is the law.
    pub fn stands(&self)
        ensures cut { HaveAgreed self.now.reads → IsCut (bytes_of self.now.state.volume)
            self.now.state.reading self.now.state.limits self.now.state.volume }
        ensures headers { (p : ℕ) → 1 ≤ p → p ≤ count_of self.now.state.volume →
            TRACE_HEADER_BYTES ≤ length (trace_at self.now.state.volume p) }
        ensures geometry { HasGeometry self.now.state.volume.head.extensions
            self.now.state.fields }
    {
        self.fields.geometry_stands();
    }

    /// In memory each read agrees. Does nothing: its contract is the law.
    pub fn memory_agrees(&self)
        ensures { self.now.state.on_disk ≡ false → HaveAgreed self.now.reads }
    {
        self.overlay.memory_agrees();
    }

    /// Inline and crossline of trace p, counted from 1; `None` where there is no such trace. Takes
    /// no memory and looks at none.
    pub fn cell(&self, p: u32) -> Option<(i32, i32)>
        ensures { HaveAgreed self.now.reads → result ≡ option_map
            (cell_of self.now.state.volume.head self.now.state.fields)
            (trace_of self.now.state.volume p) }
    {
        let trace = self.record(p)?;
        Some((trace.inline, trace.crossline))
    }

    /// The rows of slice k, counted from 0, which is kept then and comes first among those that
    /// are. A slice that is kept already is answered without a look, any other with one at each
    /// trace. Takes memory; refused for want of it, or on disk where a trace could not be read, and
    /// then the same slices are kept.
    pub fn slice(
        &mut self,
        room: &mut Room,
        slices: &mut SliceCache,
        k: u32,
    ) -> Result<Vec<Row>, SliceFault>
        requires { HaveAgreed self.old.reads → AreSlicesOf self.old.state slices.old.entries }
        ensures rows { IfOk result (λ rows. HaveAgreed self.new.reads →
            rows.items ≡ slice_in self.old.state k) }
        ensures ok { OnOk result (HaveAgreed self.new.reads →
            slices.new ≡ after_slice slices.old k (slice_in self.old.state k)) }
        ensures asked { IfOk result (λ rows. IsAsked slices.old slices.new k rows.items) }
        ensures err { OnErr result (slices.new ≡ slices.old) }
        ensures read { IfErr result (λ fault. IsOfRead fault → IsTrue self.old.state.on_disk
            × (0 < count_of self.old.state.volume)
            × IsFalse (is_kept k (kept_numbers slices.old.entries))) }
        ensures state { self.new.state ≡ self.old.state }
        ensures reads { Follow self.old.reads self.new.reads }
        ensures reads_tell { IfErr result (IsFaultOfSlice self.old.reads self.new.reads) }
        ensures loaded { self.new.loaded ≡ self.old.loaded }
        ensures looks { RisesAtMost self.old.looks self.new.looks
            (if is_kept k (kept_numbers slices.old.entries) then 0
            else count_of self.old.state.volume) }
        ensures memory { Rises (IsErrOf result SliceFault.OutOfMemory) room.old room.new }
    {
        slices.slice(room, &mut self.overlay, k)
    }
}
