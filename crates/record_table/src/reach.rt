use crate::Records;
use trace_record::Record;
use window_counts::{Extent, IntervalExtent, OffsetExtent, RectangleExtent, WideExtent};

/// How far the numbers of records reach: where windows of counts may lie. Found in one pass for all
/// that count, since records lie far apart, and a pass takes longer than what is looked at in it.
/// No number that is counted depends on it.
#[derive(Clone, Copy)]
pub struct Reach {
    triples: OffsetExtent,
    offsets: IntervalExtent,
    least: WideExtent,
    greatest: WideExtent,
}

impl Reach {
    /// Of these records. Takes no memory.
    pub fn of(records: &Records) -> Reach {
        let mut reach = Reach {
            triples: OffsetExtent::none(),
            offsets: IntervalExtent::none(),
            least: WideExtent::none(),
            greatest: WideExtent::none(),
        };
        for trace in records.iter() {
            reach.include(&trace);
        }
        reach
    }

    // One record more.
    #[inline]
    fn include(&mut self, trace: &Record) {
        self.triples
            .include((trace.inline, trace.crossline, trace.offset));
        self.offsets.include(trace.offset);
        if let Some(amplitudes) = trace.amplitudes {
            self.least.include(amplitudes.least);
            self.greatest.include(amplitudes.greatest);
        }
    }

    /// Of inline, crossline and offset together. Takes no memory.
    pub fn triples(&self) -> OffsetExtent {
        self.triples
    }

    /// Of inline and crossline. Takes no memory.
    pub fn cells(&self) -> RectangleExtent {
        self.triples.cells()
    }

    /// Of inlines. Takes no memory.
    pub fn inlines(&self) -> IntervalExtent {
        self.cells().inlines()
    }

    /// Of crosslines. Takes no memory.
    pub fn crosslines(&self) -> IntervalExtent {
        self.cells().crosslines()
    }

    /// Of offsets. Takes no memory.
    pub fn offsets(&self) -> IntervalExtent {
        self.offsets
    }

    /// Of the least samples of the traces whose samples have values. Takes no memory.
    pub fn least(&self) -> WideExtent {
        self.least
    }

    /// Of their greatest samples. Takes no memory.
    pub fn greatest(&self) -> WideExtent {
        self.greatest
    }
}
