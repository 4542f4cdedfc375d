// Traces put in the order of numbers in their headers.
ghost use Rattle.std.specs.Prelude.{◌≡◌, OnErr, IsErrOf, IfErr};
ghost use Rattle.room.specs.Refusals.{Rises};
ghost use Rattle.frame_cut.specs.Traces.{count_of};
ghost use Rattle.trace_store.specs.Swapped.{with_places_swapped, ArePlaces};
ghost use Rattle.edit_overlay.specs.CountedVolume.{RisesAtMost};
ghost use Rattle.edit_overlay.specs.Reads.{Follow, HaveAgreed};
ghost use Rattle.bench_rules.specs.declared.edit.Edit.TheVariants as edits;
ghost use Rattle.bench_rules.specs.Looks.{edit_looks};
ghost use Rattle.bench_rules.specs.Steps.{Step};
ghost use Rattle.live_volume.specs.Held.{IsReadAs};
ghost use Rattle.bench_rules.specs.ReadFaults.{IsRefusalOfReads};

use crate::live_volume::LiveVolume;
use bench_rules::{Field, Refusal};
use many_traces::exchanges_to_sort;
use room::Room;

impl LiveVolume {
    // Traces a to b in the order of the numbers of these fields, of which each falls or rises:
    // done whole, or refused, and all is as it was. Refused, in this order: E01 for a, E01 for b,
    // E02, E03; else E11 alone.
    pub(crate) fn sort(
        &mut self,
        room: &mut Room,
        a: u32,
        b: u32,
        fields: &[Field],
        falling: &[bool],
    ) -> Result<(), Refusal>
        ensures step { HaveAgreed self.new.reads → Step self.old.state
            (edits.Sort a b fields.now falling.now) result self.new.state }
        ensures err { OnErr result (self.new.state ≡ self.old.state) }
        ensures same { IsReadAs self.old.state self.new.state }
        ensures reads { Follow self.old.reads self.new.reads }
        ensures reads_tell { IfErr result (IsRefusalOfReads self.old.reads self.new.reads) }
        ensures loaded { self.new.loaded ≡ self.old.loaded }
        ensures looks { RisesAtMost self.old.looks self.new.looks
            (edit_looks self.old.state (edits.Sort a b fields.now falling.now)) }
        ensures memory { Rises (IsErrOf result Refusal.OutOfMemory) room.old room.new }
    {
        if let Some(refusal) = self.range_refusal(a, b) {
            return Err(refusal);
        }
        self.stands();
        let overlay = &mut self.overlay;
        let pairs = match exchanges_to_sort(room, overlay, &self.fields, a, b, fields, falling) {
            Ok(pairs) => pairs,
            Err(refusal) => return Err(refusal),
        };
        self.exchange_pairs(pairs);
        Ok(())
    }

    // The traces of each pair in the place of one another, one pair after the other.
    pub(crate) fn exchange_pairs(&mut self, pairs: Vec<(u32, u32)>)
        requires { ArePlaces (count_of self.old.state.volume) pairs.items }
        ensures state { self.new.state ≡ record self.old.state {
          volume = with_places_swapped self.old.state.volume pairs.items;
        } }
        ensures reads { Follow self.old.reads self.new.reads }
        ensures loaded { self.new.loaded ≡ self.old.loaded }
        ensures looks { self.new.looks ≡ self.old.looks }
    {
        self.overlay.swap_each(pairs);
    }
}
