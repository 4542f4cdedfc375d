// Runs a script over a volume.
ghost use Rattle.std.specs.Prelude.{◌≡◌, ◌≤◌, length, true, false, IsErrOf, IfOk, IfErr, MatchResult};
ghost use Rattle.edit_overlay.specs.Reads.{Follow, HaveAgreed};
ghost use Rattle.room.specs.Refusals.{Rises};
ghost use Rattle.live_volume.specs.Held.{IsReadAs};
ghost use Rattle.frame_cut.specs.Volume.{bytes_of};
ghost use Rattle.refusal_texts.specs.RefusalTexts.{load_refusal_line};
ghost use Rattle.script_text.specs.declared.run_end.RunEnd.TheVariants as ends;
ghost use Rattle.line_texts.specs.Devices.{Device, device_of, Takes};
ghost use Rattle.script_run.specs.Loading.{Loads, IsLoadRefused};
ghost use Rattle.script_run.specs.Causes.{Failures, failures, read_meanwhile, Spans};
ghost use Rattle.script_run.specs.Ends.{devices, IsTold, Runs, SavesPart};
ghost use Rattle.script_run.specs.LineLooks.{after_looks, LooksOfRun};

use crate::lines_end::LinesEnd;
use crate::options::Options;
use crate::running::run_lines;
use crate::script::read_script;
use bench_core::Bench;
use bench_laws::steps_stay_cut;
use device_io::{Sink, Source};
use edit_overlay::SaveFault;
use frame_cut::LoadFault;
use line_texts::{TextBuffer, write_text};
use refusal_texts::{load_fault_line, script_fault_line};
use room::Room;
use script_hints::Notes;
use script_text::RunEnd;
use std::io::{Read, Write};

/// Runs a script over a volume: loads the volume, reads the script whole, runs its lines in order,
/// and, where `options.save` asks for it, saves the volume behind the last line.
///
/// The reply to a line is on `answers` before the next line is run. A volume or a script that is
/// refused gives its one line there, and no line is run. With `options.stop` the first refused line
/// is the last, and nothing is saved. L01, P01, `Answers` and `Save` come only where that reader or
/// writer failed in this call. Takes memory for the volume and the script; want of it is told as
/// L16, P03 or, in a line's reply, E11, and only where a growth was refused in this call. The
/// refused lines are noted too, in a room of fixed size; no answer is made from that.
pub fn run<R: Read, S: Read, A: Write, O: Write>(
    room: &mut Room,
    reader: &mut Source<R>,
    script: &mut Source<S>,
    answers: &mut Sink<A>,
    out: &mut Sink<O>,
    options: Options,
    notes: &mut Notes,
) -> RunEnd
    ensures run { Runs false options
        (devices (device_of R.remaining reader.old)
        (device_of S.remaining script.old)
        (device_of A.contents answers.old) (device_of O.contents out.old)
        (failures room.old 0))
        (devices (device_of R.remaining reader.new)
        (device_of S.remaining script.new)
        (device_of A.contents answers.new) (device_of O.contents out.new)
        (failures room.new 0)) result }
    ensures never_falls { room.old ≤ room.new }
{
    match load(room, reader, options) {
        Ok(mut bench) => {
            let end = run_loaded(room, &mut bench, script, answers, out, options, notes);
            // The law by which each read of bytes in memory agrees, for the proof.
            bench.memory_agrees();
            bench.close();
            end
        }
        Err(fault) => tell(answers, &load_fault_line(fault), RunEnd::Load(fault)),
    }
}

/// What follows the load: reads the script whole, runs its lines over the volume, and saves it
/// where that is asked for. The volume is lent, so that its end tells whether each read of the
/// loaded bytes agreed: where the bytes stay on disk, that is what the claim on a run stands on.
/// In memory it always is so.
pub fn run_loaded<S: Read, A: Write, O: Write>(
    room: &mut Room,
    bench: &mut Bench,
    script: &mut Source<S>,
    answers: &mut Sink<A>,
    out: &mut Sink<O>,
    options: Options,
    notes: &mut Notes,
) -> RunEnd
    ensures run { (before after : Device) (first last : Failures) →
        Spans bench.old.state.on_disk first last (failures room.old bench.old.reads.failures)
        (failures room.new bench.new.reads.failures) →
        Loads before after options.reading options.limits bench.old.state.on_disk
        bench.old.state → HaveAgreed bench.new.reads → Runs bench.old.state.on_disk options
        (devices before (device_of S.remaining script.old)
        (device_of A.contents answers.old) (device_of O.contents out.old) first)
        (devices after (device_of S.remaining script.new)
        (device_of A.contents answers.new) (device_of O.contents out.new) last) result }
    ensures same { IsReadAs bench.old.state bench.new.state }
    ensures reads { Follow bench.old.reads bench.new.reads }
    ensures loaded { bench.new.loaded ≡ bench.old.loaded }
    ensures looks { HaveAgreed bench.new.reads → LooksOfRun (device_of S.remaining script.old)
        (device_of S.remaining script.new) (device_of A.contents answers.old)
        (device_of A.contents answers.new) (after_looks bench.old.state bench.old.looks)
        (after_looks bench.new.state bench.new.looks) }
    ensures never_falls { room.old ≤ room.new }
{
    // The law by which each line is answered as from scratch, for the proof.
    steps_stay_cut();
    let lines = match read_script(room, script) {
        Ok(lines) => lines,
        Err(fault) => return tell(answers, &script_fault_line(fault), RunEnd::Script(fault)),
    };
    match run_lines(room, bench, lines.as_slice(), answers, options.stop, notes) {
        LinesEnd::Stopped { line } => RunEnd::Stopped { line },
        LinesEnd::Answers { written } => RunEnd::Answers { written },
        LinesEnd::Whole { refused } if options.save => match save(bench, out) {
            Ok(()) => RunEnd::Done { refused },
            Err(fault) => RunEnd::Save(fault),
        },
        LinesEnd::Whole { refused } => RunEnd::Done { refused },
    }
}

pub(crate) fn load<R: Read>(
    room: &mut Room,
    reader: &mut Source<R>,
    options: Options,
) -> Result<Bench, LoadFault>
    ensures ok { IfOk result (λ bench. Loads (device_of R.remaining reader.old)
        (device_of R.remaining reader.new) options.reading options.limits false
        bench.state) }
    ensures loaded { IfOk result (λ bench. bench.loaded ≡ bytes_of bench.state.volume) }
    ensures err { IfErr result
        (λ fault. IsLoadRefused (device_of R.remaining reader.old)
        (device_of R.remaining reader.new) options.reading options.limits fault) }
    ensures memory { Rises (IsErrOf result LoadFault.OutOfMemory) room.old room.new }
{
    Bench::load(room, reader, options.reading, options.limits)
}

fn save<O: Write>(bench: &mut Bench, out: &mut Sink<O>) -> Result<(), SaveFault>
    ensures saved { let old = device_of O.contents out.old in
        let new = device_of O.contents out.new in
        HaveAgreed bench.new.reads →
        MatchResult result (λ _. Takes old new (bytes_of bench.old.state.volume))
        (λ fault. SavesPart
        (read_meanwhile bench.old.reads bench.new.reads)
        bench.old.state.on_disk old new (bytes_of bench.old.state.volume) fault) }
    ensures state { bench.new.state ≡ bench.old.state }
    ensures reads { Follow bench.old.reads bench.new.reads }
    ensures loaded { bench.new.loaded ≡ bench.old.loaded }
    ensures looks { bench.new.looks ≡ bench.old.looks }
{
    bench.save(out)
}

/// Refuses a volume that is larger than the limit before it is loaded, as a load does (L02): writes
/// the one line of that. Takes no memory.
pub fn refuse_too_large<A: Write>(answers: &mut Sink<A>) -> RunEnd
    ensures { IsTold (device_of A.contents answers.old) (device_of A.contents answers.new)
        (load_refusal_line LoadFault.TooLarge) (ends.Load LoadFault.TooLarge) result }
{
    let fault = LoadFault::TooLarge;
    tell(answers, &load_fault_line(fault), RunEnd::Load(fault))
}

// Writes the line of a refusal that ends the run.
pub(crate) fn tell<A: Write>(answers: &mut Sink<A>, line: &TextBuffer, end: RunEnd) -> RunEnd
    ensures { IsTold (device_of A.contents answers.old)
        (device_of A.contents answers.new) line.now end result }
{
    match write_text(answers, line.as_slice()) {
        Ok(()) => end,
        Err(part) => RunEnd::Answers {
            written: part.written,
        },
    }
}
