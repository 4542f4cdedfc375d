// The saves of a session to OUT.
ghost use Rattle.std.specs.Prelude.{◌≡◌, ◌≤◌, length, IsTrue};
ghost use Rattle.std.specs.Io.KnownBytes.{Appends};
ghost use Rattle.edit_overlay.specs.Reads.{Follow, HaveAgreed};
ghost use Rattle.frame_cut.specs.Volume.{bytes_of};
ghost use Rattle.script_run.specs.Places.{SavesElsewhere};

use bench_core::Bench;
use bench_rules::{Answer, Query};
use device_io::Sink;
use refusal_texts::SessionFault;
use room::Room;
use safe_save::{Ended, NotBegun, SavePlace};
use std::io::Write;

/// Saves what is held now to OUT: how many bytes, or S07 or S08. Takes no memory but what the place
/// does.
pub(crate) fn save_now<P: SavePlace>(
    room: &mut Room,
    bench: &mut Bench,
    place: &mut P,
) -> Result<u64, SessionFault>
    ensures saved { HaveAgreed bench.new.reads → SavesElsewhere (P.stands place.old)
        (bytes_of bench.old.state.volume) result (P.stands place.new) }
    ensures state { bench.new.state ≡ bench.old.state }
    ensures reads { Follow bench.old.reads bench.new.reads }
    ensures loaded { bench.new.loaded ≡ bench.old.loaded }
    ensures never_falls { room.old ≤ room.new }
{
    let bytes = count_bytes(room, bench);
    let writer = match place.begin() {
        Ok(writer) => writer,
        Err(NotBegun::NoPlace) => return Err(SessionFault::NoOut),
        Err(NotBegun::NoFile) => return Err(SessionFault::SaveFailed(0)),
    };
    let mut out = Sink::new(writer);
    let is_whole = is_written(bench, &mut out);
    match place.end(out.into_inner(), is_whole) {
        Ended::Saved => Ok(bytes),
        Ended::Failed { taken } => Err(SessionFault::SaveFailed(taken)),
        Ended::Torn { taken } => Err(SessionFault::SaveFailed(taken)),
        Ended::Unsettled => Err(SessionFault::SaveFailed(bytes)),
    }
}

// Writes the volume; whether all of it.
fn is_written<W: Write>(bench: &mut Bench, out: &mut Sink<W>) -> bool
    ensures whole { HaveAgreed bench.new.reads → IsTrue result →
        Appends (W.contents out.old.inner) (W.contents out.new.inner)
        (bytes_of bench.old.state.volume) }
    ensures state { bench.new.state ≡ bench.old.state }
    ensures reads { Follow bench.old.reads bench.new.reads }
    ensures loaded { bench.new.loaded ≡ bench.old.loaded }
{
    match bench.save(out) {
        Ok(()) => true,
        Err(_fault) => false,
    }
}

// How many bytes the volume has.
fn count_bytes(room: &mut Room, bench: &mut Bench) -> u64
    ensures number { HaveAgreed bench.new.reads →
        result ≡ length (bytes_of bench.old.state.volume) }
    ensures state { bench.new.state ≡ bench.old.state }
    ensures reads { Follow bench.old.reads bench.new.reads }
    ensures loaded { bench.new.loaded ≡ bench.old.loaded }
    ensures never_falls { room.old ≤ room.new }
{
    match bench.ask(room, &Query::Info) {
        Ok(Answer::Info(info)) => info.bytes,
        _ => 0,
    }
}
