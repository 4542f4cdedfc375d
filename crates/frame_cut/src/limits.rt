ghost use Rattle.std.specs.Prelude.{◌≡◌, ◌≤◌, ◌<◌, ◌^◌, ◌↔◌, IsNone, IfSome};

/// The most bytes that a file may have, at most 2^40, and the most traces.
#[derive(Clone, Copy, Debug, PartialEq, Eq)]
pub struct Limits {
    pub(crate) bytes: u64,
    pub(crate) traces: u32,
    ghost small: { bytes ≤ 2 ^ 40 },
}

impl Limits {
    /// These limits; None where the bytes are more than 2^40. Takes no memory.
    pub fn new(bytes: u64, traces: u32) -> Option<Limits>
        ensures none { IsNone result ↔ (2 ^ 40 < bytes) }
        ensures limits { IfSome result (λ limits. (limits.bytes ≡ bytes) ×
            (limits.traces ≡ traces)) }
    {
        if bytes > 1 << 40 {
            return None;
        }
        Some(Limits { bytes, traces })
    }

    /// The most bytes. Takes no memory.
    pub fn bytes(&self) -> u64
        ensures { result ≡ self.now.bytes }
    {
        self.bytes
    }

    /// The most traces. Takes no memory.
    pub fn traces(&self) -> u32
        ensures { result ≡ self.now.traces }
    {
        self.traces
    }
}
