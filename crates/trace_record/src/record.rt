ghost use Rattle.trace_record.specs.Packable.{IsPackable, IsPackable-prop};

use crate::Amplitudes;
use key_counts::{PackedRatio, Ratio};

/// What the reports need of one trace. `x` and `y` are under the trace's coordinate
/// scalar.
#[derive(Debug, Clone, Copy, PartialEq, Eq)]
pub struct Record {
    /// Those of the samples; none without samples, and where samples have no values.
    pub amplitudes: Option<Amplitudes>,
    pub x: Ratio,
    pub y: Ratio,
    pub inline: i32,
    pub crossline: i32,
    pub offset: i32,
    /// The trace sequence number within the file, trace header, bytes 5-8.
    pub sequence: i32,
    /// The number of samples that the trace has.
    pub number: u32,
    /// The coordinate scalar.
    pub scalar: i16,
    /// The coordinate units, bytes 89-90.
    pub units: i16,
    /// The sample interval, bytes 117-118.
    pub interval: u16,
    /// The number of samples as bytes 115-116 give it.
    pub samples_field: u16,
    /// Whether bytes 233-240 are zeros or `SEG00000`.
    pub has_known_name: bool,
    pub ghost small: { IsPackable amplitudes number x y } by { IsPackable-prop amplitudes number x y },
}

impl Record {
    ghost use Rattle.std.specs.Prelude.{◌≡◌};
    ghost use Rattle.key_counts.specs.Packed.{ratio_in};

    /// The x in 8 bytes, without flags. Takes no memory.
    pub fn packed_x(&self) -> PackedRatio
        ensures { ratio_in result ≡ self.now.x }
    {
        PackedRatio::of(self.x, false, false)
    }

    /// The y in 8 bytes, without flags. Takes no memory.
    pub fn packed_y(&self) -> PackedRatio
        ensures { ratio_in result ≡ self.now.y }
    {
        PackedRatio::of(self.y, false, false)
    }
}
