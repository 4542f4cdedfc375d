ghost use Rattle.std.specs.Prelude.{◌≡◌, [], map, IfOk, IsErr};
ghost use Rattle.room.specs.Refusals.{Rises};
ghost use Rattle.key_counts.specs.Counts.{count_of};
ghost use Rattle.key_counts.specs.Packed.{ratio_in};
ghost use Rattle.key_counts.specs.RatioOrder.{ratio_cmp};
ghost use Rattle.key_counts.specs.Rising.{times_in};
ghost use Rattle.key_counts.specs.Ends.{IsSpan};

use key_counts::{Counter, Counts, PackedRatio, Ratio};
use room::{OutOfMemory, Room};
use std::alloc::Global;
use std::marker::Model;

/// How often each coordinate was counted, with 8 bytes for a key, seen as the list of the
/// coordinates with their numbers.
#[derive(Drop)]
pub struct CoordinateCounts {
    packed: Counts<PackedRatio>,
}

impl Model for CoordinateCounts {
    ghost use Rattle.std.specs.Prelude.{ℕ, List};
    ghost use Rattle.std.specs.Coded.{codes};
    ghost use Rattle.key_counts.specs.contracts.ratio.Ratio as ratio_contract;
    ghost use Rattle.key_counts.specs.declared.ratio.Ratio.{Ratio};
    ghost use Rattle.range_stats.specs.Unpacked.{with_ratios};

    ghost Value = { List (Ratio × ℕ) };

    ghost coded = { Prim.hlevel (codes, ratio_contract.the_row.coded) };

    ghost view = { λ a. with_ratios a.packed };
}

impl CoordinateCounts {
    /// No coordinate. Takes no memory.
    pub fn new(alloc: Global) -> CoordinateCounts
        ensures { result ≡ [] }
    {
        CoordinateCounts {
            packed: Counts::new(alloc),
        }
    }

    /// How often each of these coordinates occurs among them. Takes memory for the counts; refused
    /// for want of it alone.
    pub fn from_keys(
        room: &mut Room,
        keys: Vec<PackedRatio>,
    ) -> Result<CoordinateCounts, OutOfMemory>
        ensures numbers { IfOk result (λ v. (q : Ratio) →
            count_of ratio_cmp v q ≡ times_in ratio_cmp (map ratio_in keys.items) q) }
        ensures memory { Rises (IsErr result) room.old room.new }
    {
        let packed = Counts::from_keys(room, keys)?;
        Ok(CoordinateCounts { packed })
    }

    /// The least and the greatest coordinate. Takes no memory.
    pub fn span(&self) -> Option<(Ratio, Ratio)>
        ensures { IsSpan ratio_cmp (count_of ratio_cmp self.now) result }
    {
        let (least, greatest) = self.packed.span()?;
        Some((least.ratio(), greatest.ratio()))
    }
}

impl Counter<PackedRatio> for CoordinateCounts {
    ghost use Rattle.key_counts.specs.Counts.{count_of};
    ghost use Rattle.key_counts.specs.Packed.{ratio_in};
    ghost use Rattle.key_counts.specs.RatioOrder.{ratio_cmp, ratio_total};
    ghost use Rattle.key_counts.specs.declared.ratio.Ratio.{Ratio};

    ghost Seen = { Ratio };

    ghost seen = { ratio_in };

    ghost cmp = { ratio_cmp };

    ghost number = { λ es. count_of ratio_cmp es };

    fn raise(&mut self, room: &mut Room, key: PackedRatio) -> Result<(), OutOfMemory> {
        self.packed.raise(room, key)?;
        Ok(())
    }

    fn lower(&mut self, key: PackedRatio) {
        self.packed.lower(&key);
    }

    ghost total = { ratio_total };
}
