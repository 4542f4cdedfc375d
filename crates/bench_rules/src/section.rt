use crate::items::Items;
use crate::sample_range::SampleRange;

/// Which samples of which traces are told: of each of the traces, counted from 1, those that the
/// range names, as far as it has them. It holds none of them.
#[derive(Drop)]
pub struct Section {
    pub traces: Items<u32>,
    pub samples: SampleRange,
}
