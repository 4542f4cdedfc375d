ghost use Rattle.std.specs.Prelude.{◌↔◌, length, IsTrue};
ghost use Rattle.frame_cut.specs.Cuts.{IsTrace};
ghost use Rattle.trace_view.specs.Runs.{Fit, bytes_with_runs};

use frame_cut::{Head, front_length};
use trace_view::{Run, overlaid_length};

// Whether the bytes are a whole trace under this head, with the runs over them.
pub(crate) fn is_whole(head: &Head, bytes: &[u8], runs: &[Run]) -> bool
    requires { Fit runs.now (length bytes.now) }
    ensures { IsTrue result ↔ IsTrace head.now (bytes_with_runs bytes.now runs.now) }
{
    if bytes.len() < front_length(head) {
        return false;
    }
    overlaid_length(head, bytes, runs) == Some(bytes.len() as u64)
}
