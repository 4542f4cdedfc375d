// A session over a volume: a line is read, answered, and only then the next one read.
ghost use Rattle.std.specs.Prelude.{◌≡◌, ◌≤◌, ◌&&◌, not, false, ℕ, List};
ghost use Rattle.edit_overlay.specs.Reads.{Follow, HaveAgreed};
ghost use Rattle.frame_cut.specs.Volume.{bytes_of};
ghost use Rattle.live_volume.specs.Held.{IsReadAs};
ghost use Rattle.line_texts.specs.Devices.{Device, device_of};
ghost use Rattle.script_run.specs.Loading.{Loads};
ghost use Rattle.script_run.specs.Causes.{Failures, failures, Spans};
ghost use Rattle.script_run.specs.Sessions.{session_devices, Session};

use crate::answering::answer_lines;
use crate::options::Options;
use crate::saves::Saves;
use crate::session_lines::SessionLines;
use crate::whole_run::{load, tell};
use bench_core::Bench;
use bench_laws::steps_stay_cut;
use device_io::{Sink, Source};
use refusal_texts::{load_fault_line, script_fault_line};
use room::Room;
use script_text::RunEnd;
use std::io::{Read, Write};

/// A session over a volume: loads the volume, and answers the lines of `script` one by one. A line
/// `save` saves what is held then to `place`: OUT is replaced ([`Outside`](crate::Outside)), or
/// FILE itself is repaired ([`InPlace`](crate::InPlace)); behind the last line it is saved only
/// where `options.save` asks for it.
///
/// Each line is answered as a line of a script is, and an empty line is written behind its answer,
/// also where that is nothing; no answer has an empty line. The answer and the empty line are on
/// `answers` before the next line is read. `save` is answered by `saved` and the number of bytes,
/// or refused: S07 where there is nowhere to save to, S08 where the save failed; `save` with more
/// words is S02. A line of more than 16777216 bytes is S05, whatever it holds. A last line that
/// lacks its line feed is not run: it is S06, and nothing is saved behind it, since what sent it
/// may have been cut off. A line that no memory holds is E11; there is no limit on their sum. E11
/// and L16 come only where a growth was refused in this call. A volume that is refused gives its
/// one line, and no line is read. With `options.stop` the first refused line is the last. Where a
/// read of the lines fails, `script refused P01 read failed` is written; a line that had begun is
/// not run. In each case the place holds what stood at the last line `save` that was answered by
/// `saved`, and at S08 either that or, where a power cut may undo it, what is held; or FILE's
/// journal gives that back. Takes memory for the volume and the longest line.
pub fn session<R: Read, S: Read, A: Write, P: Saves>(
    room: &mut Room,
    reader: &mut Source<R>,
    script: &mut Source<S>,
    answers: &mut Sink<A>,
    place: &mut P,
    options: Options,
) -> RunEnd
    ensures { (loaded : List ℕ) × Session false options
        (session_devices (device_of R.remaining reader.old)
        (device_of S.remaining script.old)
        (device_of A.contents answers.old) (P.place place.old loaded)
        (failures room.old 0))
        (session_devices (device_of R.remaining reader.new)
        (device_of S.remaining script.new)
        (device_of A.contents answers.new) (P.place place.new loaded)
        (failures room.new 0)) result }
{
    match load(room, reader, options) {
        Ok(mut bench) => {
            let end = session_loaded(room, &mut bench, script, answers, place, options);
            // The law by which each read of bytes in memory agrees, for the proof.
            bench.memory_agrees();
            bench.close();
            end
        }
        Err(fault) => tell(answers, &load_fault_line(fault), RunEnd::Load(fault)),
    }
}

/// What follows the load: answers the lines, and saves the volume where that is asked for. The
/// volume is lent, as to [`run_loaded`](crate::run_loaded).
pub fn session_loaded<S: Read, A: Write, P: Saves>(
    room: &mut Room,
    bench: &mut Bench,
    script: &mut Source<S>,
    answers: &mut Sink<A>,
    place: &mut P,
    options: Options,
) -> RunEnd
    ensures session { (before after : Device) (first last : Failures) →
        Spans bench.old.state.on_disk first last (failures room.old bench.old.reads.failures)
        (failures room.new bench.new.reads.failures) →
        Loads before after options.reading options.limits bench.old.state.on_disk
        bench.old.state → bench.old.loaded ≡ bytes_of bench.old.state.volume →
        HaveAgreed bench.new.reads → Session bench.old.state.on_disk options
        (session_devices before (device_of S.remaining script.old)
        (device_of A.contents answers.old) (P.place place.old bench.old.loaded) first)
        (session_devices after (device_of S.remaining script.new)
        (device_of A.contents answers.new) (P.place place.new bench.new.loaded) last)
        result }
    ensures same { IsReadAs bench.old.state bench.new.state }
    ensures reads { Follow bench.old.reads bench.new.reads }
    ensures loaded { bench.new.loaded ≡ bench.old.loaded }
    ensures never_falls { room.old ≤ room.new }
{
    // The laws by which each line is answered as from scratch, and by which the place is one for
    // this volume, for the proof.
    steps_stay_cut();
    place.follows();
    match answer_lines(room, bench, script, answers, place, options.stop) {
        SessionLines::Stopped { line } => RunEnd::Stopped { line },
        SessionLines::Answers { written } => RunEnd::Answers { written },
        SessionLines::Script { fault, written } => {
            match tell(answers, &script_fault_line(fault), RunEnd::Script(fault)) {
                RunEnd::Answers { written: more } => RunEnd::Answers {
                    written: written.saturating_add(more),
                },
                end => end,
            }
        }
        SessionLines::Whole {
            refused,
            is_cut_off,
        } => {
            if !is_asked(options.save, is_cut_off) {
                return RunEnd::Done { refused };
            }
            match place.save_at_end(room, bench) {
                Ok(_bytes) => RunEnd::Done { refused },
                Err(_fault) => RunEnd::SaveAtEnd { refused },
            }
        }
    }
}

// Whether the volume is saved behind the last line.
fn is_asked(save: bool, is_cut_off: bool) -> bool
    ensures { result ≡ (save && not is_cut_off) }
{
    save && !is_cut_off
}
