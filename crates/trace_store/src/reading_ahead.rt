// Bytes that are read before a pass over the traces needs them.
use crate::store::TraceStore;

// How many traces are read ahead at once.
const AHEAD: u32 = 32;

impl<T: Copy> TraceStore<T> {
    /// Reads byte `at`, counted from 0, of each of 32 traces from trace p on at once, where they
    /// are in memory; a trace need not be there, nor have the byte. A pass over the traces is
    /// faster for it: what it reads of a trace is seldom at hand, and between two traces it does so
    /// much that the second read would wait until the first is done; reads that follow each other
    /// closely wait together. All bytes that were read in one: what is not kept is not read.
    #[inline(never)]
    pub fn read_ahead(&self, p: u32, at: u64) -> u8 {
        if !self.loaded.is_in_memory() {
            return 0;
        }
        let bytes = self.loaded.bytes();
        let mut all = 0;
        for k in 0..AHEAD {
            if let Some(place) = self.loaded_place(p.saturating_add(k), at) {
                all ^= bytes.get(place).copied().unwrap_or(0);
            }
        }
        all
    }

    // Where byte `at` of trace p lies in the loaded file, where it does.
    fn loaded_place(&self, p: u32, at: u64) -> Option<usize> {
        let id = self.order.get(p)?;
        self.slots.get(id)?.layers.loaded_place(at)
    }
}
