// A view of a trace in memory.
ghost use Rattle.std.specs.Prelude.{◌≡◌, length};
ghost use Rattle.trace_view.specs.Runs.{Fit};
ghost use Rattle.trace_view.specs.Shown.{bytes_of};

use frame_cut::{Head, front_length};
use std::process::Abort;
use trace_view::{Run, TraceView, overlaid_length};

// The trace, where it has the length that its headers give it.
pub(crate) fn view<'a>(
    rt: &impl Abort,
    head: &'a Head,
    base: &'a [u8],
    runs: &'a [Run],
) -> TraceView<'a>
    requires { Fit runs.now (length base.now) }
    ensures { length (bytes_of result) ≡ length base.now }
{
    assert!(rt; base.len() >= front_length(head));
    let Some(length) = overlaid_length(head, base, runs) else {
        panic!(rt; "too many extensions");
    };
    assert!(rt; length == base.len() as u64);
    TraceView::new(head, base, runs)
}
