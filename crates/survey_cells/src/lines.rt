// How far apart the lines of a survey are.
ghost use Rattle.std.specs.Prelude.{◌≡◌};
ghost use Rattle.cell_positions.specs.Steps.{inlines_apart as inlines_apart_of, crosslines_apart as crosslines_apart_of};

use line_problems::LineSpan;

// One step from an inline to the next, and none from a crossline.
pub(crate) fn inlines_apart(span: &LineSpan) -> Option<(i64, i64)>
    ensures { result ≡ inlines_apart_of span.now }
{
    let step = span.step?;
    Some((step, 0))
}

// One step from a crossline to the next, and none from an inline.
pub(crate) fn crosslines_apart(span: &LineSpan) -> Option<(i64, i64)>
    ensures { result ≡ crosslines_apart_of span.now }
{
    let step = span.step?;
    Some((0, step))
}
