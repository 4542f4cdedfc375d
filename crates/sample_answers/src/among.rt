// What the samples of listed traces say, one trace after another.
ghost use Rattle.std.specs.Prelude.{◌≡◌, ◌⊎◌, ◌<◌, Ok, Err, IfOk, IfErr, false, length, map, true, IsErrOf};
ghost use Rattle.room.specs.Refusals.{Rises};
ghost use Rattle.frame_cut.specs.Traces.{count_of};
ghost use Rattle.trace_view.specs.Values.{has_floats};
ghost use Rattle.edit_overlay.specs.CountedVolume.{IsSeen};
ghost use Rattle.edit_overlay.specs.Reads.{HaveAgreed};
ghost use Rattle.bench_rules.specs.declared.ask_fault.AskFault.TheVariants.{OutOfMemory as no_memory};
ghost use Rattle.bench_rules.specs.Conditions.{AreRising};
ghost use Rattle.bench_rules.specs.ReadFaults.{IsFaultOfReads, IsReadFault};
ghost use Rattle.bench_rules.specs.SampleStatistics.{float_trace_statistics, samples_at, stats_answer_of_each, trace_statistics};

use crate::of_trace::{of_floats, of_numbers};
use bench_rules::{
    Answer, AskFault, FloatTraceStatistics, Items, TraceStatistics, has_float_samples,
    has_opaque_samples,
};
use edit_overlay::Overlay;
use room::Room;
use trace_record::PackedRecord;

/// The answer on what the samples of these traces say, which rise. Looks at each of them once at
/// most. Refused: E12 where samples have no values, and no trace is looked at then; E11. On disk
/// also where a trace could not be read (E14, E15).
pub fn stats_among(
    room: &mut Room,
    overlay: &mut Overlay<PackedRecord>,
    traces: &[u32],
) -> Result<Answer, AskFault>
    requires { AreRising 1 (count_of overlay.old.volume) traces.now }
    ensures ok { IfOk result (λ answer. HaveAgreed overlay.new.reads →
        stats_answer_of_each overlay.old.volume traces.now ≡ Ok answer) }
    ensures err { IfErr result (λ fault. (fault ≡ no_memory) ⊎
        (IsReadFault overlay.old.loaded.on_disk fault × (0 < length traces.now)) ⊎
        (stats_answer_of_each overlay.old.volume traces.now ≡ Err fault)) }
    ensures reads_tell { IfErr result (IsFaultOfReads overlay.old.reads overlay.new.reads) }
    ensures seen { IsSeen overlay.old overlay.new (length traces.now) }
    ensures memory { Rises (IsErrOf result AskFault.OutOfMemory) room.old room.new }
{
    if has_opaque_samples(overlay) {
        return Err(AskFault::NoValues);
    }
    if has_float_samples(overlay) {
        let found = floats_among(room, overlay, traces)?;
        return Ok(Answer::FloatStats(found));
    }
    let found = numbers_among(room, overlay, traces)?;
    Ok(Answer::Stats(found))
}

fn numbers_among(
    room: &mut Room,
    overlay: &mut Overlay<PackedRecord>,
    traces: &[u32],
) -> Result<Items<TraceStatistics>, AskFault>
    requires rising { AreRising 1 (count_of overlay.old.volume) traces.now }
    requires whole { has_floats overlay.old.volume.head ≡ false }
    ensures ok { IfOk result (λ found. HaveAgreed overlay.new.reads → found ≡
        map (λ p. trace_statistics p (samples_at overlay.old.volume p)) traces.now) }
    ensures err { IfErr result (λ fault. (fault ≡ no_memory) ⊎
        (IsReadFault overlay.old.loaded.on_disk fault × (0 < length traces.now))) }
    ensures reads_tell { IfErr result (IsFaultOfReads overlay.old.reads overlay.new.reads) }
    ensures seen { IsSeen overlay.old overlay.new (length traces.now) }
    ensures memory { Rises (IsErrOf result AskFault.OutOfMemory) room.old room.new }
{
    let mut found = room.told(Vec::with_capacity(room.alloc(), traces.len()))?;
    for p in traces {
        let one = of_numbers(overlay, *p)?;
        room.told_back(found.push(one))?;
    }
    Ok(Items::new(found))
}

fn floats_among(
    room: &mut Room,
    overlay: &mut Overlay<PackedRecord>,
    traces: &[u32],
) -> Result<Items<FloatTraceStatistics>, AskFault>
    requires rising { AreRising 1 (count_of overlay.old.volume) traces.now }
    requires floats { has_floats overlay.old.volume.head ≡ true }
    ensures ok { IfOk result (λ found. HaveAgreed overlay.new.reads → found ≡
        map (λ p. float_trace_statistics p (samples_at overlay.old.volume p)) traces.now) }
    ensures err { IfErr result (λ fault. (fault ≡ no_memory) ⊎
        (IsReadFault overlay.old.loaded.on_disk fault × (0 < length traces.now))) }
    ensures reads_tell { IfErr result (IsFaultOfReads overlay.old.reads overlay.new.reads) }
    ensures seen { IsSeen overlay.old overlay.new (length traces.now) }
    ensures memory { Rises (IsErrOf result AskFault.OutOfMemory) room.old room.new }
{
    let mut found = room.told(Vec::with_capacity(room.alloc(), traces.len()))?;
    for p in traces {
        let one = of_floats(overlay, *p)?;
        room.told_back(found.push(one))?;
    }
    Ok(Items::new(found))
}
