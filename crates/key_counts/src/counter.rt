ghost use Rattle.std.specs.Prelude.{◌≡◌, ℕ, ◌+◌, ◌<◌, ◌^◌, OnOk, OnErr, IsOk, IsErr};
ghost use Rattle.std.specs.Cmp.{IsTotalOrder};
ghost use Rattle.std.specs.declared.cmp.Ordering.{Ordering};
ghost use Rattle.room.specs.Refusals.{Rises};
ghost use Rattle.key_counts.specs.Numbers.{IsSame, IsOneMore};

use room::{OutOfMemory, Room};

/// What counts keys, one by one, and is seen as the number of each key. Keys that compare equal are
/// one key.
pub trait Counter<K: Copy> {
    // What a key stands for.
    ghost Seen: { Type 0 };

    ghost seen: { K → Seen };

    // The order of the keys.
    ghost cmp: { Seen → Seen → Ordering };

    // How often each key was counted.
    ghost number: { Self → Seen → ℕ };

    /// Counts the key once more. Takes memory for a key that is not held, and leaves all as it was
    /// where the growth is refused.
    fn raise(&mut self, room: &mut Room, key: K) -> Result<(), OutOfMemory>
        requires { number self.old (seen key) + 1 < 2 ^ 64 }
        ensures ok { OnOk result (IsOneMore cmp (number self.old) (number self.new) (seen key)) }
        ensures err { OnErr result (IsSame (number self.old) (number self.new)) }
        ensures held { 0 < number self.old (seen key) → IsOk result }
        ensures memory { Rises (IsErr result) room.old room.new };

    /// Counts the key once less. Takes no memory.
    fn lower(&mut self, key: K)
        requires { 0 < number self.old (seen key) }
        ensures { IsOneMore cmp (number self.new) (number self.old) (seen key) };

    ghost total: { IsTotalOrder cmp };
}
