// Where the saves of a session go.
ghost use Rattle.std.specs.Prelude.{◌≡◌, ◌≤◌, List, ℕ};
ghost use Rattle.edit_overlay.specs.Reads.{Follow, HaveAgreed};
ghost use Rattle.frame_cut.specs.Volume.{bytes_of};
ghost use Rattle.script_run.specs.Places.{Place, Elsewhere, Follows, IsSaved};

use crate::saving::save_now;
use bench_core::Bench;
use refusal_texts::SessionFault;
use room::Room;
use safe_save::SavePlace;

/// Where the saves of a session go, one after another: OUT, or FILE itself.
pub trait Saves {
    /// What is there, of a volume that was loaded from these bytes.
    ghost place: { Self → List ℕ → Place };

    /// It is a place for the saves of that volume. Does nothing: its contract is the law.
    fn follows(&self)
        ensures { (loaded : List ℕ) → Follows (place self.now loaded) loaded };

    /// Saves what is held now, at a line `save`: how many bytes, or S07 or S08.
    fn save(&mut self, room: &mut Room, bench: &mut Bench) -> Result<u64, SessionFault>
        ensures saved { HaveAgreed bench.new.reads → IsSaved (place self.old bench.old.loaded)
            (bytes_of bench.old.state.volume) result (place self.new bench.new.loaded) }
        ensures state { bench.new.state ≡ bench.old.state }
        ensures reads { Follow bench.old.reads bench.new.reads }
        ensures loaded { bench.new.loaded ≡ bench.old.loaded }
        ensures never_falls { room.old ≤ room.new };

    /// The same behind the last line.
    fn save_at_end(&mut self, room: &mut Room, bench: &mut Bench) -> Result<u64, SessionFault>
        ensures saved { HaveAgreed bench.new.reads → IsSaved (place self.old bench.old.loaded)
            (bytes_of bench.old.state.volume) result (place self.new bench.new.loaded) }
        ensures state { bench.new.state ≡ bench.old.state }
        ensures reads { Follow bench.old.reads bench.new.reads }
        ensures loaded { bench.new.loaded ≡ bench.old.loaded }
        ensures never_falls { room.old ≤ room.new };
}

/// A place beside FILE, as OUT is, whose saves write all that is held.
#[derive(Drop)]
pub struct Outside<P> {
    pub place: P,
}

impl<P: SavePlace> Saves for Outside<P> {
    ghost place = { λ out loaded. Elsewhere (P.stands out.place) };

    fn follows(&self) {}

    fn save(&mut self, room: &mut Room, bench: &mut Bench) -> Result<u64, SessionFault> {
        save_now(room, bench, &mut self.place)
    }

    fn save_at_end(&mut self, room: &mut Room, bench: &mut Bench) -> Result<u64, SessionFault> {
        save_now(room, bench, &mut self.place)
    }
}
