// What an edit that was done leaves of the slices that are kept.
ghost use Rattle.std.specs.Prelude.{◌≡◌, IfErr, IfOk, OnErr, IsErr, IsErrOf};
ghost use Rattle.room.specs.Refusals.{Rises};
ghost use Rattle.bench_rules.specs.KeptSlices.{none_kept};
ghost use Rattle.edit_overlay.specs.CountedVolume.{RisesAtMost};
ghost use Rattle.edit_overlay.specs.Reads.{Follow, HaveAgreed};
ghost use Rattle.bench_rules.specs.Looks.{edit_looks};
ghost use Rattle.bench_rules.specs.ReadFaults.{IsRefusalOfReads};
ghost use Rattle.bench_rules.specs.Steps.{Step, told_of};
ghost use Rattle.live_volume.specs.Held.{IsReadAs};
ghost use Rattle.bench_core.specs.Changes.{has_moved, is_moved, entries_after};

use bench_rules::{Edit, Refusal};
use field_map::is_geometry;
use live_volume::LiveVolume;
use room::{OutOfMemory, Room};
use time_slice::SliceCache;

/// Room for 8 slices, of which none is kept yet. Takes memory.
pub fn no_slices(room: &mut Room) -> Result<SliceCache, OutOfMemory>
    ensures slices { IfOk result (λ slices. slices ≡ none_kept 8) }
    ensures memory { Rises (IsErr result) room.old room.new }
{
    SliceCache::new(room, 8)
}

/// The edit in the volume. Where it is done, tells whether a set gave its trace, or a field of many
/// traces counted up or computed one of them, another inline or crossline, of any other edit no;
/// and of how many traces one of chosen traces was, where it has a condition.
pub fn change(
    volume: &mut LiveVolume,
    room: &mut Room,
    edit: &Edit,
) -> Result<(bool, Option<u32>), Refusal>
    ensures step { HaveAgreed volume.new.reads →
        Step volume.old.state edit.now result volume.new.state }
    ensures err { OnErr result (volume.new.state ≡ volume.old.state) }
    ensures same { IsReadAs volume.old.state volume.new.state }
    ensures reads { Follow volume.old.reads volume.new.reads }
    ensures reads_tell { IfErr result (IsRefusalOfReads volume.old.reads volume.new.reads) }
    ensures loaded { volume.new.loaded ≡ volume.old.loaded }
    ensures looks { RisesAtMost volume.old.looks volume.new.looks
        (edit_looks volume.old.state edit.now) }
    ensures moved { IfOk result (λ done. HaveAgreed volume.new.reads → done.0
        ≡ has_moved volume.old.state edit.now volume.new.state) }
    ensures told { IfOk result (λ done. HaveAgreed volume.new.reads → done.1
        ≡ told_of volume.old.state edit.now) }
    ensures memory { Rises (IsErrOf result Refusal.OutOfMemory) room.old room.new }
{
    match edit {
        Edit::Set(p, _, _) => {
            let before = volume.cell(*p);
            volume.apply(room, edit)?;
            Ok((is_moved(before, volume.cell(*p)), None))
        }
        Edit::Renumber {
            first_trace: a,
            last_trace: b,
            field,
            first_value: first,
            step,
        } => {
            let moved = volume.renumber(room, *a, *b, field, *first, *step)?;
            Ok((moved, None))
        }
        Edit::Compute {
            first_trace: a,
            last_trace: b,
            field,
            source,
            steps,
        } => {
            let moved = volume.compute(room, *a, *b, field, source, steps.as_slice())?;
            Ok((moved, None))
        }
        Edit::OfChosen(chosen, edit) => {
            let told = volume.apply_chosen(room, chosen, edit)?;
            Ok((false, told))
        }
        _ => {
            volume.apply(room, edit)?;
            Ok((false, None))
        }
    }
}

/// Whether a trace has another inline or crossline than before.
pub fn is_moved(before: Option<(i32, i32)>, after: Option<(i32, i32)>) -> bool
    ensures { result ≡ is_moved before after }
{
    match (before, after) {
        (Some(old), Some(new)) => old.0 != new.0 || old.1 != new.1,
        _ => false,
    }
}

/// Forgets the slices that an edit may have changed; `moved` tells whether a set, or a field of
/// many traces counted up or computed, gave a trace another inline or crossline. Takes no memory.
pub fn follow(slices: &mut SliceCache, edit: &Edit, moved: bool)
    ensures entries { slices.new.entries ≡ entries_after moved edit.now slices.old.entries }
    ensures capacity { slices.new.capacity ≡ slices.old.capacity }
{
    match edit {
        Edit::SetBin(_, _)
        | Edit::Declare
        | Edit::DropTail
        | Edit::SetText(_, _)
        | Edit::Unmap(_) => {}
        Edit::Set(_, _, _) | Edit::Renumber { .. } | Edit::Compute { .. } => {
            if moved {
                slices.clear();
            }
        }
        Edit::Map(name, _) => {
            if is_geometry(name.as_str()) {
                slices.clear();
            }
        }
        Edit::Patch(_, k, values) => slices.forget(*k, values.as_slice().len()),
        Edit::MapAs(_)
        | Edit::Blank(_)
        | Edit::Copy(_, _)
        | Edit::Delete(_)
        | Edit::Move(_, _)
        | Edit::MoveBlock(_, _, _)
        | Edit::Resize(_, _)
        | Edit::Sort { .. }
        | Edit::OfChosen(_, _) => slices.clear(),
    }
}
