// Runs behind whose last line FILE itself is repaired.
ghost use Rattle.std.specs.Prelude.{◌≡◌, ◌≤◌, length, true, false, Err, IsErrAnd, IfOk, IfErr, OnErr, List, Bool};
ghost use Rattle.edit_overlay.specs.Reads.{Follow, HaveAgreed};
ghost use Rattle.room.specs.Refusals.{Rises};
ghost use Rattle.live_volume.specs.Held.{IsReadAs};
ghost use Rattle.edit_pieces.specs.declared.repaired.Repaired.TheVariants.{NotBegun};
ghost use Rattle.frame_cut.specs.Volume.{bytes_of};
ghost use Rattle.line_texts.specs.Devices.{Device, device_of};
ghost use Rattle.refusal_texts.specs.RefusalTexts.{load_refusal_line};
ghost use Rattle.script_text.specs.declared.run_end.RunEnd.TheVariants as ends;
ghost use Rattle.script_run.specs.Ends.{IsTold};
ghost use Rattle.script_run.specs.Causes.{Failures, failures, Spans};
ghost use Rattle.script_run.specs.Loading.{Loads};
ghost use Rattle.script_run.specs.OnDisk.{unread, read_whole, RefusesPass};
ghost use Rattle.script_run.specs.InPlace.{reading_devices, ComesOfFailure, Repairs, RunsInPlace};

use crate::disk_run::close_volume;
use crate::lines_end::LinesEnd;
use crate::on_disk::load_on_disk;
use crate::options::Options;
use crate::repairing::{edits_of, repair_by};
use crate::running::run_lines;
use crate::script::read_script;
use crate::whole_run::{load, tell};
use bench_core::Bench;
use bench_laws::steps_stay_cut;
use device_io::{Sink, Source};
use edit_overlay::PassFault;
use edit_pieces::Repaired;
use frame_cut::LoadFault;
use journal_codes::PIECE_ROOM;
use journal_save::Disk;
use refusal_texts::{load_fault_line, script_fault_line};
use room::Room;
use script_hints::Notes;
use script_text::RunEnd;
use std::fs::File;
use std::io::{Read, Write};

/// How a run ended behind which FILE itself was to be repaired: the run, and the repair.
#[derive(Debug, Drop)]
pub struct RepairRun {
    pub end: RunEnd,
    pub repaired: Repaired,
}

/// Runs a script over a volume as [`run`](crate::run) does; but where `options.save` asks for it,
/// FILE itself, which `disk` is, becomes the edited file behind the last line: only the bytes that
/// edits laid over it are written, under a journal of the old ones. So a crash at any moment leaves
/// the old file or the edited one, or a journal that gives the old one back.
///
/// The edits have to leave the order, the number and the lengths of the traces as they were, and
/// else `repaired` is `Unfit` and nothing is written. That FILE still holds the bytes that were
/// loaded is the disk's to see. `piece` has room for one piece. Takes memory as `run`; the repair
/// none.
pub fn run_in_place<R: Read, S: Read, A: Write, D: Disk>(
    room: &mut Room,
    reader: &mut Source<R>,
    script: &mut Source<S>,
    answers: &mut Sink<A>,
    disk: &mut D,
    piece: &mut [u8],
    options: Options,
    notes: &mut Notes,
) -> RepairRun
    requires piece { length piece.old ≡ PIECE_ROOM }
    ensures run { RunsInPlace false options
        (reading_devices (device_of R.remaining reader.old) (device_of S.remaining script.old)
        (device_of A.contents answers.old) (failures room.old 0))
        (reading_devices (device_of R.remaining reader.new) (device_of S.remaining script.new)
        (device_of A.contents answers.new) (failures room.new 0))
        result.end result.repaired (D.disk disk.old) (D.disk disk.new) }
    ensures cause { ComesOfFailure result.repaired (D.failed disk.new) }
{
    match load(room, reader, options) {
        Ok(mut bench) => {
            let run = loaded_in_place(
                room, &mut bench, script, answers, disk, piece, options, notes,
            );
            // The law by which each read of bytes in memory agrees, for the proof.
            bench.memory_agrees();
            bench.close();
            run
        }
        Err(fault) => not_begun(tell(answers, &load_fault_line(fault), RunEnd::Load(fault))),
    }
}

// No repair was begun.
fn not_begun(end: RunEnd) -> RepairRun
    ensures end { result.end ≡ end }
    ensures repaired { result.repaired ≡ NotBegun }
{
    RepairRun {
        end,
        repaired: Repaired::NotBegun,
    }
}

// What follows the load.
fn loaded_in_place<S: Read, A: Write, D: Disk>(
    room: &mut Room,
    bench: &mut Bench,
    script: &mut Source<S>,
    answers: &mut Sink<A>,
    disk: &mut D,
    piece: &mut [u8],
    options: Options,
    notes: &mut Notes,
) -> RepairRun
    requires piece { length piece.old ≡ PIECE_ROOM }
    ensures run { (before after : Device) (first last : Failures) →
        Spans bench.old.state.on_disk first last (failures room.old bench.old.reads.failures)
        (failures room.new bench.new.reads.failures) →
        Loads before after options.reading options.limits bench.old.state.on_disk
        bench.old.state → bench.old.loaded ≡ bytes_of bench.old.state.volume →
        HaveAgreed bench.new.reads → RunsInPlace bench.old.state.on_disk options
        (reading_devices before (device_of S.remaining script.old)
        (device_of A.contents answers.old) first)
        (reading_devices after (device_of S.remaining script.new)
        (device_of A.contents answers.new) last)
        result.end result.repaired (D.disk disk.old) (D.disk disk.new) }
    ensures same { IsReadAs bench.old.state bench.new.state }
    ensures reads { Follow bench.old.reads bench.new.reads }
    ensures loaded { bench.new.loaded ≡ bench.old.loaded }
    ensures cause { ComesOfFailure result.repaired (D.failed disk.new) }
    ensures never_falls { room.old ≤ room.new }
{
    // The law by which each line is answered as from scratch, for the proof.
    steps_stay_cut();
    let lines = match read_script(room, script) {
        Ok(lines) => lines,
        Err(fault) => {
            return not_begun(tell(answers, &script_fault_line(fault), RunEnd::Script(fault)));
        }
    };
    match run_lines(room, bench, lines.as_slice(), answers, options.stop, notes) {
        LinesEnd::Stopped { line } => not_begun(RunEnd::Stopped { line }),
        LinesEnd::Answers { written } => not_begun(RunEnd::Answers { written }),
        LinesEnd::Whole { refused } => RepairRun {
            end: RunEnd::Done { refused },
            repaired: repaired(bench, disk, piece, options.save),
        },
    }
}

// Repairs FILE, where that is asked for.
fn repaired<D: Disk>(bench: &Bench, disk: &mut D, piece: &mut [u8], is_asked: bool) -> Repaired
    requires piece { length piece.old ≡ PIECE_ROOM }
    ensures repairs { Repairs is_asked bench.now.loaded (bytes_of bench.now.state.volume) result
        (D.disk disk.old) (D.disk disk.new) }
    ensures cause { ComesOfFailure result (D.failed disk.new) }
{
    if !is_asked {
        return Repaired::NotBegun;
    }
    match edits_of(bench) {
        Ok(mut edits) => repair_by(disk, &mut edits, piece),
        Err(why) => Repaired::Unfit(why),
    }
}

/// How a run over a file that stays on disk ended, behind which FILE itself was to be repaired,
/// with the volume as it is then, or why the file was refused, as [`DiskRun`](crate::DiskRun).
#[derive(Drop)]
pub struct DiskRepairRun {
    pub run: RepairRun,
    pub volume: Result<Bench, PassFault>,
}

impl DiskRepairRun {
    /// How it ended. Gives back the memory of the volume, and closes its file.
    pub fn close(self) -> RepairRun
        ensures { result ≡ self.run }
    {
        close_volume(self.volume);
        self.run
    }
}

/// Runs a script over a file that stays on disk, and has so many bytes, as
/// [`run_on_disk`](crate::run_on_disk) does, and repairs FILE behind it, as [`run_in_place`] does.
/// The repair reads nothing of the volume.
pub fn run_on_disk_in_place<S: Read, A: Write, D: Disk>(
    room: &mut Room,
    file: File,
    size: u64,
    script: &mut Source<S>,
    answers: &mut Sink<A>,
    disk: &mut D,
    piece: &mut [u8],
    options: Options,
    notes: &mut Notes,
) -> DiskRepairRun
    requires piece { length piece.old ≡ PIECE_ROOM }
    ensures run { IfOk result.volume (λ volume. HaveAgreed volume.reads → RunsInPlace true options
        (reading_devices (unread volume.loaded) (device_of S.remaining script.old)
        (device_of A.contents answers.old) (failures room.old 0))
        (reading_devices read_whole (device_of S.remaining script.new)
        (device_of A.contents answers.new) (failures room.new volume.reads.failures))
        result.run.end result.run.repaired (D.disk disk.old) (D.disk disk.new)) }
    ensures size { IfOk result.volume (λ volume. length volume.loaded ≡ size) }
    ensures refused { IfErr result.volume (RefusesPass size options
        (device_of S.remaining script.old) (device_of S.remaining script.new)
        (device_of A.contents answers.old) (device_of A.contents answers.new) result.run.end) }
    ensures unsaved { OnErr result.volume (D.disk disk.new ≡ D.disk disk.old) }
    ensures cause { ComesOfFailure result.run.repaired (D.failed disk.new) }
    ensures memory { Rises (IsErrAnd result.volume (λ e. e.fault ≡ LoadFault.OutOfMemory))
        room.old room.new }
{
    match load_on_disk(room, file, size, options) {
        Ok(mut bench) => {
            let run = loaded_in_place(
                room, &mut bench, script, answers, disk, piece, options, notes,
            );
            DiskRepairRun {
                run,
                volume: Ok(bench),
            }
        }
        Err(refused) => refuse(answers, refused),
    }
}

// Tells of a file that was not loaded, which ends the run.
fn refuse<A: Write>(answers: &mut Sink<A>, refused: PassFault) -> DiskRepairRun
    ensures end { IsTold (device_of A.contents answers.old) (device_of A.contents answers.new)
        (load_refusal_line refused.fault) (ends.Load refused.fault) result.run.end }
    ensures repaired { result.run.repaired ≡ NotBegun }
    ensures volume { result.volume ≡ Err refused }
{
    let fault = refused.fault();
    DiskRepairRun {
        run: RepairRun {
            end: tell(answers, &load_fault_line(fault), RunEnd::Load(fault)),
            repaired: Repaired::NotBegun,
        },
        volume: Err(refused),
    }
}
