// A run, and then the end of its save.
ghost use Rattle.std.specs.Prelude.{◌≡◌, [], true, false, Some, length, IfOk, IfErr, OnErr, IsErrAnd, option_map};
ghost use Rattle.room.specs.Refusals.{Rises};
ghost use Rattle.std.specs.Io.Buffered.{writer_contents};
ghost use Rattle.edit_overlay.specs.Reads.{HaveAgreed};
ghost use Rattle.safe_save.specs.Saving.{beside_bytes};
ghost use Rattle.line_texts.specs.Devices.{device_of};
ghost use Rattle.script_run.specs.Causes.{failures};
ghost use Rattle.script_run.specs.Ends.{devices};
ghost use Rattle.script_run.specs.OnDisk.{unread, read_whole, RefusesPass};
ghost use Rattle.run_ending.specs.declared.out_end.OutEnd.TheVariants.{Saved};
ghost use Rattle.saved_run.specs.ToOut.{writer_of, EndsOut, RunsToOut, HoldsAll};

use device_io::{Sink, Source};
use frame_cut::LoadFault;
use room::Room;
use run_ending::{OutEnd, end_out};
use safe_save::{Folder, Save};
use script_hints::Notes;
use script_run::{DiskRun, Options, RunEnd, run, run_on_disk};
use std::fs::File;
use std::io::{BufWriter, Read, Write};

/// How a run and its save ended, with the folder of OUT.
#[derive(Drop)]
pub struct ToOut<F> {
    pub end: RunEnd,
    pub out: OutEnd,
    pub folder: F,
}

/// The same of a run over a file that stays on disk.
#[derive(Drop)]
pub struct DiskToOut<F> {
    pub run: DiskRun,
    pub out: OutEnd,
    pub folder: F,
}

impl<F> DiskToOut<F> {
    /// How it ended. Gives back the memory of the volume, and closes its file.
    pub fn close(self) -> ToOut<F>
        ensures { result ≡ record { end = self.run.end; out = self.out; folder = self.folder } }
    {
        let DiskToOut { run, out, folder } = self;
        let end = run.close();
        ToOut { end, out, folder }
    }
}

/// Runs a script over a volume, as `run` does, with `writer` for the save, and ends that, where all
/// lines were run and `options.save` asks for it; else OUT stays as it was. How the save ended says
/// what stands there (`OutEnd`). `mode` is that of a new file. Takes memory as `run` does.
pub fn run_to_out<R: Read, S: Read, A: Write, F: Folder + Drop>(
    room: &mut Room,
    reader: &mut Source<R>,
    script: &mut Source<S>,
    answers: &mut Sink<A>,
    writer: BufWriter<Save<F>>,
    mode: Option<u32>,
    options: Options,
    notes: &mut Notes,
) -> ToOut<F>
    ensures run { RunsToOut false options mode
        (devices (device_of R.remaining reader.old) (device_of S.remaining script.old)
        (device_of A.contents answers.old)
        (writer_of (writer_contents (option_map beside_bytes) writer))
        (failures room.old 0))
        (device_of R.remaining reader.new) (device_of S.remaining script.new)
        (device_of A.contents answers.new) (failures room.new 0) result.end result.out
        (F.disk result.folder) }

    // Where the save is told as done, OUT is the file of what the lines made of the volume.
    ensures saved { writer_contents (option_map beside_bytes) writer ≡ Some [] →
        result.out ≡ Saved → HoldsAll false options mode
        (devices (device_of R.remaining reader.old) (device_of S.remaining script.old)
        (device_of A.contents answers.old)
        (writer_of (writer_contents (option_map beside_bytes) writer))
        (failures room.old 0))
        (device_of R.remaining reader.new) (device_of S.remaining script.new)
        (device_of A.contents answers.new) (failures room.new 0) (F.disk result.folder) }
{
    let mut out = Sink::new(writer);
    let end = run(room, reader, script, answers, &mut out, options, notes);
    let (folder, out) = end_out(end, options.save, out.into_inner(), mode);
    ToOut { end, out, folder }
}

/// The same over a file that stays on disk, and has so many bytes, as `run_on_disk` runs it. What
/// is said of it holds where each later read gave the bytes of the load (`HaveAgreed`); of a file
/// that was not loaded OUT is what it was.
pub fn run_on_disk_to_out<S: Read, A: Write, F: Folder + Drop>(
    room: &mut Room,
    file: File,
    size: u64,
    script: &mut Source<S>,
    answers: &mut Sink<A>,
    writer: BufWriter<Save<F>>,
    mode: Option<u32>,
    options: Options,
    notes: &mut Notes,
) -> DiskToOut<F>
    ensures run { IfOk result.run.volume (λ volume. HaveAgreed volume.reads →
        RunsToOut true options mode
        (devices (unread volume.loaded) (device_of S.remaining script.old)
        (device_of A.contents answers.old)
        (writer_of (writer_contents (option_map beside_bytes) writer))
        (failures room.old 0))
        read_whole (device_of S.remaining script.new)
        (device_of A.contents answers.new) (failures room.new volume.reads.failures)
        result.run.end result.out (F.disk result.folder)) }
    ensures saved { IfOk result.run.volume (λ volume. HaveAgreed volume.reads →
        writer_contents (option_map beside_bytes) writer ≡ Some [] → result.out ≡ Saved →
        HoldsAll true options mode
        (devices (unread volume.loaded) (device_of S.remaining script.old)
        (device_of A.contents answers.old)
        (writer_of (writer_contents (option_map beside_bytes) writer))
        (failures room.old 0))
        read_whole (device_of S.remaining script.new)
        (device_of A.contents answers.new) (failures room.new volume.reads.failures)
        (F.disk result.folder)) }
    ensures size { IfOk result.run.volume (λ volume. length volume.loaded ≡ size) }
    ensures refused { IfErr result.run.volume (RefusesPass size options
        (device_of S.remaining script.old) (device_of S.remaining script.new)
        (device_of A.contents answers.old) (device_of A.contents answers.new) result.run.end) }
    ensures unsaved { OnErr result.run.volume
        (EndsOut options mode (writer_contents (option_map beside_bytes) writer)
        result.run.end result.out (F.disk result.folder)) }
    ensures memory { Rises (IsErrAnd result.run.volume (λ e. e.fault ≡ LoadFault.OutOfMemory))
        room.old room.new }
{
    let mut out = Sink::new(writer);
    let run = run_on_disk(room, file, size, script, answers, &mut out, options, notes);
    let (folder, out) = end_out(run.end, options.save, out.into_inner(), mode);
    DiskToOut { run, out, folder }
}
