// The extremes of all named header fields over many traces.
ghost use Rattle.std.specs.Prelude.{◌≡◌, ◌+◌, ◌-◌, ◌<◌, ◌≤◌, ◌++◌, ◌⊎◌, [], IsTrue, IfOk, IfErr, OnOk, length, map, option_to_list, IsErrOf};
ghost use Rattle.room.specs.Refusals.{Rises};
ghost use Rattle.frame_cut.specs.Traces.{count_of, is_trace, trace_at};
ghost use Rattle.trace_view.specs.Shown.{bytes_of, head_of};
ghost use Rattle.trace_view.specs.Values.{main_header};
ghost use Rattle.edit_overlay.specs.CountedVolume.{IsSeen};
ghost use Rattle.edit_overlay.specs.Reads.{HaveAgreed, IsFaultOfLook};
ghost use Rattle.bench_rules.specs.declared.ask_fault.AskFault.TheVariants.{OutOfMemory as no_memory};
ghost use Rattle.bench_rules.specs.ChosenQueries.{extremes_of_each};
ghost use Rattle.bench_rules.specs.Conditions.{AreRising};
ghost use Rattle.bench_rules.specs.Headers.{extremes_in, with_name};
ghost use Rattle.bench_rules.specs.ReadFaults.{IsFaultOfReads, IsReadFault};
ghost use Rattle.header_answers.specs.Seen.{seen_of, seen_each, shown_of};

use crate::main_numbers::number_at;
use crate::seen::Seen;
use bench_rules::{AskFault, Extremes, Items, Text};
use edit_overlay::{Overlay, ReadFault};
use field_map::{Place, TRACE_HEADER_BYTES};
use room::Room;
use trace_record::PackedRecord;
use trace_view::TraceView;

/// Each of the names whose numbers in traces a to b are not all 0, with the least, the greatest,
/// the first and the last of those of the traces that have its place. Looks at each of the traces
/// once. Refused: E11 alone. On disk also where a trace could not be read (E14, E15).
pub fn extremes(
    room: &mut Room,
    overlay: &mut Overlay<PackedRecord>,
    a: u32,
    b: u32,
    names: Vec<(Text, Place)>,
) -> Result<Items<(Text, Extremes)>, AskFault>
    requires first { 1 ≤ a }
    requires range { a ≤ b }
    requires last { b ≤ count_of overlay.old.volume }
    ensures ok { IfOk result (λ found. HaveAgreed overlay.new.reads →
        found ≡ extremes_in overlay.old.volume names.items a b) }
    ensures err { IfErr result (λ fault. IsReadFault overlay.old.loaded.on_disk fault
        ⊎ (fault ≡ no_memory)) }
    ensures reads_tell { IfErr result (IsFaultOfReads overlay.old.reads overlay.new.reads) }
    ensures seen { IsSeen overlay.old overlay.new (b + 1 - a) }
    ensures memory { Rises (IsErrOf result AskFault.OutOfMemory) room.old room.new }
{
    let mut seen = nothing_seen(room, names.as_slice())?;
    for k in 0..b - a + 1 {
        see_trace(overlay, a + k, names.as_slice(), &mut seen)?;
    }
    shown(room, names, seen.as_slice())
}

/// Each of the names whose numbers in these traces, which rise, are not all 0, with the least, the
/// greatest, the first and the last of those of the traces that have its place. Looks at each of
/// the traces once at most. Refused: E11 alone. On disk also where a trace could not be read (E14,
/// E15).
pub fn extremes_among(
    room: &mut Room,
    overlay: &mut Overlay<PackedRecord>,
    traces: &[u32],
    names: Vec<(Text, Place)>,
) -> Result<Items<(Text, Extremes)>, AskFault>
    requires { AreRising 1 (count_of overlay.old.volume) traces.now }
    ensures ok { IfOk result (λ found. HaveAgreed overlay.new.reads →
        found ≡ extremes_of_each overlay.old.volume names.items traces.now) }
    ensures err { IfErr result (λ fault. (fault ≡ no_memory) ⊎
        (IsReadFault overlay.old.loaded.on_disk fault × (0 < length traces.now))) }
    ensures reads_tell { IfErr result (IsFaultOfReads overlay.old.reads overlay.new.reads) }
    ensures seen { IsSeen overlay.old overlay.new (length traces.now) }
    ensures memory { Rises (IsErrOf result AskFault.OutOfMemory) room.old room.new }
{
    let mut seen = nothing_seen(room, names.as_slice())?;
    for p in traces {
        see_trace(overlay, *p, names.as_slice(), &mut seen)?;
    }
    shown(room, names, seen.as_slice())
}

// Nothing seen of each of the names.
fn nothing_seen(room: &mut Room, names: &[(Text, Place)]) -> Result<Vec<Seen>, AskFault>
    ensures ok { IfOk result (λ seen. seen.items ≡ map (λ _. seen_of []) names.now) }
    ensures err { IfErr result (λ fault. fault ≡ no_memory) }
    ensures memory { Rises (IsErrOf result AskFault.OutOfMemory) room.old room.new }
{
    let mut seen = room.told(Vec::with_capacity(room.alloc(), names.len()))?;
    for _each in names {
        room.told_back(seen.push(Seen {
            extremes: None,
            some: false,
        }))?;
    }
    Ok(seen)
}

// Sees the numbers of trace p, in one look.
fn see_trace(
    overlay: &mut Overlay<PackedRecord>,
    p: u32,
    names: &[(Text, Place)],
    seen: &mut Vec<Seen>,
) -> Result<(), ReadFault>
    requires trace { IsTrue (is_trace overlay.old.volume p) }
    requires each { length seen.old.items ≡ length names.now }
    ensures numbers { OnOk result (HaveAgreed overlay.new.reads → seen.new.items
        ≡ seen_each overlay.old.volume.head (trace_at overlay.old.volume p) names.now
        seen.old.items) }
    ensures each { OnOk result (length seen.new.items ≡ length names.now) }
    ensures seen { IsSeen overlay.old overlay.new 1 }
    ensures read { IfErr result (λ _. IsTrue overlay.old.loaded.on_disk) }
    ensures reads_tell { IfErr result (IsFaultOfLook overlay.old.reads overlay.new.reads) }
{
    let Some(trace) = overlay.look(p)? else {
        unreachable!()
    };
    see_numbers(&trace, names, seen);
    Ok(())
}

// Sees the numbers of a trace. Its main header is one slice: lent where no run touches it, else
// copied.
fn see_numbers(trace: &TraceView<'_>, names: &[(Text, Place)], seen: &mut Vec<Seen>)
    requires { length seen.old.items ≡ length names.now }
    ensures { seen.new.items ≡ seen_each (head_of trace.now) (bytes_of trace.now) names.now
        seen.old.items }
{
    match trace.plain(0, TRACE_HEADER_BYTES as u64) {
        Some(main) => see_each(trace, main, names, seen),
        None => {
            let mut main = [0; TRACE_HEADER_BYTES];
            trace.read(0, &mut main);
            see_each(trace, &main, names, seen)
        }
    }
}

// The same, with the main header of the trace at hand.
fn see_each(trace: &TraceView<'_>, main: &[u8], names: &[(Text, Place)], seen: &mut Vec<Seen>)
    requires main { main.now ≡ main_header (bytes_of trace.now) }
    requires each { length seen.old.items ≡ length names.now }
    ensures { seen.new.items ≡ seen_each (head_of trace.now) (bytes_of trace.now) names.now
        seen.old.items }
{
    for i in 0..names.len() {
        seen[i].see(number_at(trace, main, names[i].1));
    }
}

// The names whose numbers are not all 0, with what was seen of each.
fn shown(
    room: &mut Room,
    names: Vec<(Text, Place)>,
    seen: &[Seen],
) -> Result<Items<(Text, Extremes)>, AskFault>
    requires { length seen.now ≡ length names.items }
    ensures ok { IfOk result (λ found. found ≡ shown_of names.items seen.now) }
    ensures err { IfErr result (λ fault. fault ≡ no_memory) }
    ensures memory { Rises (IsErrOf result AskFault.OutOfMemory) room.old room.new }
{
    let mut found = Vec::new(room.alloc());
    let mut at = 0usize;
    for (name, _place) in names {
        keep(room, &mut found, name, seen[at].shown())?;
        at += 1;
    }
    Ok(Items::new(found))
}

// Puts the name with its extremes behind others, where it has any.
fn keep(
    room: &mut Room,
    found: &mut Vec<(Text, Extremes)>,
    name: Text,
    extremes: Option<Extremes>,
) -> Result<(), AskFault>
    ensures ok { OnOk result (found.new.items ≡ found.old.items
        ++ option_to_list (with_name name extremes)) }
    ensures err { IfErr result (λ fault. fault ≡ no_memory) }
    ensures memory { Rises (IsErrOf result AskFault.OutOfMemory) room.old room.new }
{
    if let Some(extremes) = extremes {
        room.told_back(found.push((name, extremes)))?;
    }
    Ok(())
}
