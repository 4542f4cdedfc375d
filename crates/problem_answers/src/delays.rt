// The delays of all traces.
ghost use Rattle.std.specs.Prelude.{◌≡◌, ◌⊎◌, ◌<◌, ◌^◌, length, map, IsTrue, IfOk, IfErr, IsErrOf};
ghost use Rattle.room.specs.Refusals.{Rises};
ghost use Rattle.frame_cut.specs.Traces.{count_of, is_trace, trace_at};
ghost use Rattle.trace_view.specs.Shown.{bytes_of, head_of};
ghost use Rattle.edit_overlay.specs.CountedVolume.{IsSeen};
ghost use Rattle.edit_overlay.specs.Reads.{HaveAgreed, IsFaultOfLook};
ghost use Rattle.bench_rules.specs.declared.ask_fault.AskFault.TheVariants.{OutOfMemory as no_memory};
ghost use Rattle.bench_rules.specs.Problems.{delay_of, delays_of};
ghost use Rattle.bench_rules.specs.ReadFaults.{IsFaultOfReads, IsReadFault};

use bench_rules::AskFault;
use edit_overlay::{Overlay, ReadFault};
use num_order::i16_at;
use room::Room;
use trace_record::PackedRecord;
use trace_view::TraceView;

// Where the delay stands: bytes 109-110, counted from 1.
const DELAY: u64 = 108;

/// The delay of each trace, in order. Looks once at each. Takes 8 bytes a trace; refused E11 for
/// want of them, on disk also where a trace could not be read (E14, E15).
pub(crate) fn delays(
    room: &mut Room,
    overlay: &mut Overlay<PackedRecord>,
) -> Result<Vec<i64>, AskFault>
    ensures ok { IfOk result (λ delays. HaveAgreed overlay.new.reads →
        delays.items ≡ delays_of overlay.old.volume) }
    ensures few { IfOk result (λ delays. length delays.items < 2 ^ 32) }
    ensures err { IfErr result (λ fault. (fault ≡ no_memory) ⊎
        (IsReadFault overlay.old.loaded.on_disk fault × (0 < count_of overlay.old.volume))) }
    ensures reads_tell { IfErr result (IsFaultOfReads overlay.old.reads overlay.new.reads) }
    ensures seen { IsSeen overlay.old overlay.new (count_of overlay.old.volume) }
    ensures memory { Rises (IsErrOf result AskFault.OutOfMemory) room.old room.new }
{
    let count = overlay.count();
    let mut delays = room.told(Vec::with_capacity(room.alloc(), count as usize))?;
    for k in 0..count {
        overlay.read_ahead(k + 1, DELAY);
        room.told_back(delays.push(delay(overlay, k + 1)?))?;
    }
    Ok(delays)
}

// The delay of trace p, in one look.
fn delay(overlay: &mut Overlay<PackedRecord>, p: u32) -> Result<i64, ReadFault>
    requires trace { IsTrue (is_trace overlay.old.volume p) }
    ensures ok { IfOk result (λ delay. HaveAgreed overlay.new.reads → delay
        ≡ delay_of overlay.old.volume.head (trace_at overlay.old.volume p)) }
    ensures seen { IsSeen overlay.old overlay.new 1 }
    ensures read { IfErr result (λ _. IsTrue overlay.old.loaded.on_disk) }
    ensures reads_tell { IfErr result (IsFaultOfLook overlay.old.reads overlay.new.reads) }
{
    let Some(trace) = overlay.look(p)? else {
        unreachable!()
    };
    Ok(delay_in(&trace))
}

// The delay of the trace that is shown.
fn delay_in(trace: &TraceView<'_>) -> i64
    ensures { result ≡ delay_of (head_of trace.now) (bytes_of trace.now) }
{
    let mut bytes = [0; 2];
    trace.read(DELAY, &mut bytes);
    i64::from(i16_at(trace.head().order, &bytes, 0))
}
