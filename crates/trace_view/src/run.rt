use smallvec::SmallVec;

/// Bytes that stand in place of those of a trace. Up to 16 of them take no memory of their own.
#[derive(Drop)]
pub struct Run {
    /// The place of the first, counted from 0 in the trace.
    pub at: u64,
    pub bytes: SmallVec<u8, 16>,
}

impl Run {
    ghost use Rattle.std.specs.Prelude.{◌≡◌};
    ghost use Rattle.trace_view.specs.Runs.{is_apart as is_apart_of};

    // Whether it leaves the bytes from..to alone.
    pub(crate) fn is_apart(&self, from: u64, to: u64) -> bool
        ensures { result ≡ is_apart_of from to self.now }
    {
        to <= self.at || (self.at <= from && self.bytes.len() as u64 <= from - self.at)
    }
}
