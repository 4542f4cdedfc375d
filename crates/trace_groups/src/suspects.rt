// What makes a trace suspect, one type for each problem.
ghost use Rattle.std.specs.Prelude.{◌≡◌};
ghost use Rattle.trace_record.specs.Facts.{facts_of};
ghost use Rattle.trace_groups.specs.Suspects.{at_origin as stands_at_origin, far_facts as facts_of_far};

use trace_record::{Amplitudes, Record};

// A test of one trace.
pub(crate) trait Suspicion {
    ghost use Rattle.std.specs.Prelude.{◌≡◌, ℤ, Option};
    ghost use Rattle.trace_record.specs.Facts.{Facts, facts_of};

    // What there is to say of a trace that does not pass.
    ghost facts: { Self → Facts → Option (ℤ × ℤ) };

    fn facts_in(&self, trace: &Record) -> Option<(i128, i128)>
        ensures { result ≡ facts self.now (facts_of trace.now) };
}

// Whether x and y are both 0.
pub(crate) fn is_at_origin(trace: &Record) -> bool
    ensures { result ≡ stands_at_origin (facts_of trace.now) }
{
    trace.x.num == 0 && trace.y.num == 0
}

// S2: x and y are both 0.
#[derive(Clone, Copy)]
pub(crate) struct AtOrigin;

impl Suspicion for AtOrigin {
    ghost use Rattle.trace_groups.specs.Suspects.{origin_facts};

    ghost facts = { λ s f. origin_facts f };

    fn facts_in(&self, trace: &Record) -> Option<(i128, i128)> {
        if is_at_origin(trace) {
            Some((0, 0))
        } else {
            None
        }
    }
}

// The number, where it lies outside of the range.
fn far_facts(near: (i32, i32), number: i32) -> Option<(i128, i128)>
    ensures { result ≡ facts_of_far near number }
{
    if near.0 <= number && number <= near.1 {
        return None;
    }
    Some((i128::from(number), 0))
}

// S5: the inline lies outside of the range.
#[derive(Clone, Copy)]
pub(crate) struct FarInline {
    pub(crate) near: (i32, i32),
}

impl Suspicion for FarInline {
    ghost use Rattle.trace_groups.specs.Suspects.{far_facts};

    ghost facts = { λ s f. far_facts s.near f.inline };

    fn facts_in(&self, trace: &Record) -> Option<(i128, i128)> {
        far_facts(self.near, trace.inline)
    }
}

// S6: the crossline lies outside of the range.
#[derive(Clone, Copy)]
pub(crate) struct FarCrossline {
    pub(crate) near: (i32, i32),
}

impl Suspicion for FarCrossline {
    ghost use Rattle.trace_groups.specs.Suspects.{far_facts};

    ghost facts = { λ s f. far_facts s.near f.crossline };

    fn facts_in(&self, trace: &Record) -> Option<(i128, i128)> {
        far_facts(self.near, trace.crossline)
    }
}
