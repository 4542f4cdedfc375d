// How long a trace is, from its headers in base bytes with runs laid over them.
ghost use Rattle.std.specs.Prelude.{◌≡◌, ◌≤◌, length};
ghost use Rattle.frame_cut.specs.Frames.{front_length, extension_count as extension_count_of, sample_count as sample_count_of, trace_length as trace_length_of};
ghost use Rattle.trace_view.specs.Runs.{Fit, bytes_with_runs};

use crate::overlaid::Overlaid;
use crate::run::Run;
use field_map::TRACE_HEADER_BYTES;
use frame_cut::{Head, extensions_by, samples_by};

/// The length in bytes that their headers give these base bytes with these runs over them: rising,
/// disjoint, inside, none of them empty. None where the first header extension says that there are
/// more extensions than the file allows. Takes no memory.
pub fn overlaid_length(head: &Head, base: &[u8], runs: &[Run]) -> Option<u64>
    requires fit { Fit runs.now (length base.now) }
    requires whole { front_length head.now ≤ length base.now }
    ensures { result ≡ trace_length_of head.now (bytes_with_runs base.now runs.now) }
{
    let bytes = Overlaid::new(base, runs);
    let extensions = extension_count(head, &bytes)?;
    let samples = sample_count(head, &bytes);
    Some(
        TRACE_HEADER_BYTES as u64 * (1 + u64::from(extensions))
            + u64::from(head.format.width()) * u64::from(samples),
    )
}

// How many header extensions there are: bytes 157-158 of the first say it.
pub(crate) fn extension_count(head: &Head, bytes: &Overlaid<'_>) -> Option<u8>
    requires { front_length head.now ≤ length
        (bytes_with_runs bytes.now.base.now bytes.now.runs.now) }
    ensures { result ≡ extension_count_of head.now
        (bytes_with_runs bytes.now.base.now bytes.now.runs.now) }
{
    if head.extensions == 0 {
        return Some(0);
    }
    extensions_by(
        head,
        bytes.unsigned(head.order, 2, TRACE_HEADER_BYTES + 157 - 1),
    )
}

// How many samples there are: bytes 137-140 of the first header extension or bytes 115-116 of the
// main header say it, or the binary header.
pub(crate) fn sample_count(head: &Head, bytes: &Overlaid<'_>) -> u32
    requires { front_length head.now ≤ length
        (bytes_with_runs bytes.now.base.now bytes.now.runs.now) }
    ensures { result ≡ sample_count_of head.now
        (bytes_with_runs bytes.now.base.now bytes.now.runs.now) }
{
    // Where all traces have one number, the trace's own is not looked for: it costs an access to
    // memory that is seldom at hand.
    if head.fixed {
        return head.samples;
    }
    let wide = if head.extensions == 0 {
        0
    } else {
        bytes.unsigned(head.order, 4, TRACE_HEADER_BYTES + 137 - 1)
    };
    samples_by(head, wide, bytes.unsigned(head.order, 2, 115 - 1))
}
