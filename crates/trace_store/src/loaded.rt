// Reads of the bytes under a store.
ghost use Rattle.std.specs.Prelude.{◌≡◌, ◌+◌, ◌≤◌, length, take, drop, IfErr, IsOk, OnOk};
ghost use Rattle.base_file.specs.Faults.{IsFaultOfRead};
ghost use Rattle.base_file.specs.HeldBytes.{AreThere, IsInMemory, IsSure, lent_of};

use crate::store::TraceStore;
use base_file::ReadFault;

impl<T: Copy> TraceStore<T> {
    ghost use Rattle.trace_store.specs.Reread.{IsReread};

    /// Reads n bytes of the loaded file from `at` on, where they are on disk: `loaded` lends them
    /// then. Refused as `Held::fetch`.
    pub fn fetch_loaded(&mut self, at: u64, n: usize) -> Result<(), ReadFault>
        requires { at + n ≤ length self.old.loaded.bytes }
        ensures reread { IsReread self.old self.new }
        ensures there { OnOk result (AreThere self.new.loaded at n) }
        ensures size { OnOk result (length (lent_of self.new.loaded at n) ≡ n) }
        ensures bytes { OnOk result (IsSure self.new.loaded.standing →
            lent_of self.new.loaded at n ≡ take n (drop at self.old.loaded.bytes)) }
        ensures fault { IfErr result (IsFaultOfRead self.old.loaded.most n
            self.old.loaded.failures self.new.loaded.failures) }
        ensures memory { IsInMemory self.old.loaded.standing → IsOk result }
    {
        self.loaded.fetch(at, n)
    }
}
