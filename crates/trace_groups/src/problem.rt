/// A problem that traces have, with the two facts that a run of it has.
#[derive(Debug, Clone, Copy, PartialEq, Eq)]
pub enum TraceProblem {
    /// F1: bytes 5-8 are not the trace's position. How far they lie above it, and 0.
    Sequence,
    /// F2: bytes 115-116 are neither 0 nor the trace's number of samples. The field, and the number
    /// of samples.
    Samples,
    /// F3: bytes 117-118 are neither 0 nor the binary header's interval. The trace's interval and
    /// the binary header's, in microseconds.
    Interval,
    /// F4: the coordinate scalar is none of the standard's. The scalar, and 0.
    Scalar,
    /// F5: bytes 89-90 differ from the first trace's. The trace's units, and the first trace's.
    Units,
    /// F6: inline, crossline and offset stand together at an earlier trace. How many traces before,
    /// and 0.
    Repeated,
    /// F9: in a file of revision 2.0, bytes 233-240 are neither zeros nor `SEG00000`. 0 and 0.
    Name,
    /// S2: x and y are both 0, where most traces have another position. 0 and 0.
    NoPosition,
    /// S3: the coordinate scalar is not the one that most traces have. The trace's, and that one.
    OtherScalar,
    /// S4: the delay is not the one that most traces have. The trace's, and that one.
    OtherDelay,
    /// S5: the inline lies far from the others. The inline, and 0.
    FarInline,
    /// S6: the crossline lies far from the others. The crossline, and 0.
    FarCrossline,
    /// S12: all samples have the same value. The value, of floats its rank, and 0.
    Dead,
    /// S13: the greatest amount is more than 100 times the median of all traces. The amount, of
    /// floats its rank, and 0.
    Loud,
}
