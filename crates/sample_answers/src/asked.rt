// The samples of one trace that a range names.
ghost use Rattle.std.specs.Prelude.{◌≡◌};

use crate::plain::{PlainSamples, sample_of_trace};
use bench_rules::SampleRange;
use std::marker::Model;
use trace_view::TraceView;

/// An iterator over those samples of a trace that a range names, as far as the trace has them.
/// Seen as the list of those that are left. Takes no memory.
#[derive(Drop)]
pub struct AskedSamples<'a> {
    trace: TraceView<'a>,
    plain: Option<PlainSamples<'a>>,
    range: SampleRange,
    next: u64,
}

impl<'a> Model for AskedSamples<'a> {
    ghost use Rattle.std.specs.Prelude.{ℤ, List};
    ghost use Rattle.sample_answers.specs.Asked.{left_in, IsAtOne};

    ghost Value = { List ℤ };

    ghost view = { left_in };

    ghost invariant = { IsAtOne };
}

impl<'a> AskedSamples<'a> {
    ghost use Rattle.trace_view.specs.Shown.{bytes_of, head_of};
    ghost use Rattle.bench_rules.specs.Sections.{samples_in_range};

    /// Those of the trace that is shown; none where its samples have no values. Takes no memory.
    pub fn new(trace: &TraceView<'a>, range: SampleRange) -> AskedSamples<'a>
        ensures { result ≡ samples_in_range (head_of trace.now) range (bytes_of trace.now) }
    {
        AskedSamples {
            trace: *trace,
            plain: PlainSamples::of(trace),
            range,
            next: u64::from(range.from),
        }
    }
}

impl<'a> Iterator for AskedSamples<'a> {
    ghost use Rattle.std.specs.Iterator.{YieldsFirst, item_count};

    type Item = i128;

    ghost next_gives = { YieldsFirst (λ s. s) };

    ghost remaining = { item_count (λ s. s) };

    #[inline]
    fn next(&mut self) -> Option<i128> {
        if self.next > u64::from(self.range.to) {
            return None;
        }
        let sample = sample_of_trace(&self.trace, &self.plain, self.next as u32)?;
        self.next += u64::from(self.range.step.max(1));
        Some(sample)
    }
}
