// All named header fields of one trace.
ghost use Rattle.std.specs.Prelude.{◌≡◌, ◌++◌, ◌⊎◌, option_to_list, IsTrue, IfOk, IfErr, OnOk, IsErrOf};
ghost use Rattle.room.specs.Refusals.{Rises};
ghost use Rattle.frame_cut.specs.Traces.{is_trace, trace_at};
ghost use Rattle.trace_view.specs.Shown.{bytes_of, head_of};
ghost use Rattle.edit_overlay.specs.CountedVolume.{IsSeen};
ghost use Rattle.edit_overlay.specs.Reads.{HaveAgreed};
ghost use Rattle.bench_rules.specs.declared.ask_fault.AskFault.TheVariants.{OutOfMemory as no_memory};
ghost use Rattle.bench_rules.specs.Headers.{header_of, with_name};
ghost use Rattle.bench_rules.specs.ReadFaults.{IsFaultOfReads, IsReadFault};

use bench_rules::{AskFault, Items, Text};
use edit_overlay::Overlay;
use field_map::Place;
use room::Room;
use trace_record::PackedRecord;
use trace_view::TraceView;

/// Each of the names whose place trace p has, with the number there. One look. Refused: E11 alone.
/// On disk also where the trace could not be read (E14, E15).
pub fn header(
    room: &mut Room,
    overlay: &mut Overlay<PackedRecord>,
    p: u32,
    names: Vec<(Text, Place)>,
) -> Result<Items<(Text, i128)>, AskFault>
    requires { IsTrue (is_trace overlay.old.volume p) }
    ensures ok { IfOk result (λ numbers. HaveAgreed overlay.new.reads → numbers ≡ header_of
        overlay.old.volume.head names.items (trace_at overlay.old.volume p)) }
    ensures err { IfErr result (λ fault. IsReadFault overlay.old.loaded.on_disk fault
        ⊎ (fault ≡ no_memory)) }
    ensures reads_tell { IfErr result (IsFaultOfReads overlay.old.reads overlay.new.reads) }
    ensures seen { IsSeen overlay.old overlay.new 1 }
    ensures memory { Rises (IsErrOf result AskFault.OutOfMemory) room.old room.new }
{
    let Some(trace) = overlay.look(p)? else {
        unreachable!()
    };
    named_numbers(room, &trace, names)
}

// Each of the names whose place the trace has, with the number there.
fn named_numbers(
    room: &mut Room,
    trace: &TraceView<'_>,
    names: Vec<(Text, Place)>,
) -> Result<Items<(Text, i128)>, AskFault>
    ensures ok { IfOk result (λ numbers. numbers ≡ header_of (head_of trace.now) names.items
        (bytes_of trace.now)) }
    ensures err { IfErr result (λ fault. fault ≡ no_memory) }
    ensures memory { Rises (IsErrOf result AskFault.OutOfMemory) room.old room.new }
{
    let mut numbers = Vec::new(room.alloc());
    for (name, place) in names {
        keep(room, &mut numbers, name, trace.value(place))?;
    }
    Ok(Items::new(numbers))
}

// Puts the name with its number behind others, where it has one.
fn keep(
    room: &mut Room,
    numbers: &mut Vec<(Text, i128)>,
    name: Text,
    number: Option<i128>,
) -> Result<(), AskFault>
    ensures ok { OnOk result (numbers.new.items ≡ numbers.old.items
        ++ option_to_list (with_name name number)) }
    ensures err { IfErr result (λ fault. fault ≡ no_memory) }
    ensures memory { Rises (IsErrOf result AskFault.OutOfMemory) room.old room.new }
{
    if let Some(number) = number {
        room.told_back(numbers.push((name, number)))?;
    }
    Ok(())
}
