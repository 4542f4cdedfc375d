// A block of traces moved.
ghost use Rattle.std.specs.Prelude.{◌≡◌, ◌+◌, ◌-◌, ◌<◌, ◌^◌, IfNone, OnErr, IsErrOf, IfErr, IfSome};
ghost use Rattle.edit_overlay.specs.Reads.{Follow, HaveAgreed};
ghost use Rattle.room.specs.Refusals.{Rises};
ghost use Rattle.bench_rules.specs.BlockMoves.{block_refusal};
ghost use Rattle.bench_rules.specs.declared.edit.Edit.TheVariants as edits;
ghost use Rattle.bench_rules.specs.Steps.{Step};
ghost use Rattle.live_volume.specs.Held.{IsReadAs};
ghost use Rattle.bench_rules.specs.ReadFaults.{IsRefusalOfNoRead, IsRefusalOfReads};

use crate::live_volume::LiveVolume;
use bench_rules::Refusal;
use many_traces::exchanges_to_move;
use room::Room;

impl LiveVolume {
    // Traces a to b, as one block, out, and in again in their order so that the first of them is
    // trace `to`: done whole, or refused, and all is as it was. Refused, in this order: E01 for a,
    // E01 for b, E01 for `to`; else E11 alone.
    pub(crate) fn move_block(
        &mut self,
        room: &mut Room,
        a: u32,
        b: u32,
        to: u32,
    ) -> Result<(), Refusal>
        ensures step { HaveAgreed self.new.reads →
            Step self.old.state (edits.MoveBlock a b to) result self.new.state }
        ensures err { OnErr result (self.new.state ≡ self.old.state) }
        ensures same { IsReadAs self.old.state self.new.state }
        ensures reads { Follow self.old.reads self.new.reads }
        ensures reads_tell { IfErr result (IsRefusalOfReads self.old.reads self.new.reads) }
        ensures loaded { self.new.loaded ≡ self.old.loaded }
        ensures looks { self.new.looks ≡ self.old.looks }
        ensures memory { Rises (IsErrOf result Refusal.OutOfMemory) room.old room.new }
    {
        if let Some(refusal) = self.block_refusal(a, b, to) {
            return Err(refusal);
        }
        self.stands();
        let pairs = exchanges_to_move(room, a, b, to)?;
        self.exchange_pairs(pairs);
        Ok(())
    }

    // The first refusal of traces a to b as a block from trace `to` on: E01.
    fn block_refusal(&self, a: u32, b: u32, to: u32) -> Option<Refusal>
        ensures refusal { result ≡ block_refusal self.now.state.volume a b to }
        ensures room { IfNone result (to + (b - a) < 2 ^ 32) }
        ensures rule { IfSome result IsRefusalOfNoRead }
    {
        if let Some(refusal) = self.range_refusal(a, b) {
            return Some(refusal);
        }
        // What the first trace of the block can be at most.
        let last = self.count() - (b - a);
        if to >= 1 && to <= last {
            None
        } else {
            Some(Refusal::NoTrace(to, last))
        }
    }
}
