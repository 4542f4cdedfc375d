// Samples that no edit has touched, read by their numbers.
ghost use Rattle.std.specs.Prelude.{◌≡◌, List, ℕ, Some, IfSome};
ghost use Rattle.frame_cut.specs.declared.file_head.Head.{Head};
ghost use Rattle.trace_view.specs.Shown.{bytes_of, head_of};
ghost use Rattle.trace_view.specs.Values.{sample_of};
ghost use Rattle.sample_answers.specs.Plain.{ArePlain};

use num_order::Order;
use sample_codes::ValueFormat;
use trace_view::TraceView;

// The samples of a trace as one slice, with what is needed to read one of them: what a view of the
// trace finds anew for each.
#[derive(Clone, Copy)]
pub(crate) struct PlainSamples<'a> {
    pub order: Order,
    pub format: ValueFormat,
    pub count: u32,
    pub bytes: &'a [u8],
}

impl<'a> PlainSamples<'a> {
    // Those of the trace; none where an edit has touched them, or they have no values.
    pub(crate) fn of(trace: &TraceView<'a>) -> Option<PlainSamples<'a>>
        ensures { IfSome result (λ p. ArePlain p (head_of trace.now) (bytes_of trace.now)) }
    {
        let head = trace.head();
        let format = head.format.values()?;
        let bytes = trace.plain_samples()?;
        Some(PlainSamples {
            order: head.order,
            format,
            count: trace.sample_count(),
            bytes,
        })
    }

    // The value of sample k, where it is one of these.
    #[inline]
    fn sample(&self, k: u32) -> Option<i128>
        ensures { IfSome result (λ x. (h : Head) → (t : List ℕ) → ArePlain self.now h t →
            sample_of h t k ≡ Some x) }
    {
        if k >= self.count {
            return None;
        }
        let size = self.format.width() as usize;
        let at = size * k as usize;
        let end = at + size;
        if end > self.bytes.len() {
            return None;
        }
        let bytes = &self.bytes[at..end];
        Some(self.format.decode(self.order, bytes))
    }
}

// The value of sample k of the trace, whose samples are plain or not.
#[inline]
pub(crate) fn sample_of_trace(
    trace: &TraceView<'_>,
    plain: &Option<PlainSamples<'_>>,
    k: u32,
) -> Option<i128>
    requires { IfSome plain.now (λ p. ArePlain p (head_of trace.now) (bytes_of trace.now)) }
    ensures { result ≡ sample_of (head_of trace.now) (bytes_of trace.now) k }
{
    if let Some(samples) = plain {
        if let Some(sample) = samples.sample(k) {
            return Some(sample);
        }
    }
    trace.sample(k)
}
