// The slot of one trace.
ghost use Rattle.std.specs.Prelude.{◌≡◌, ◌+◌, ◌≤◌, length};
ghost use Rattle.frame_cut.specs.Layout.{bytes_at};

use crate::layers::Layers;
use frame_cut::Extent;

/// One trace: its bytes, with the runs that edits laid over them, and what the store's user keeps
/// of it.
#[derive(Drop)]
pub struct Slot<T: Copy> {
    pub layers: Layers,
    pub payload: T,
}

// The bytes of an extent.
pub(crate) fn piece(bytes: &[u8], extent: Extent) -> &[u8]
    requires { extent.start + extent.length ≤ length bytes.now }
    ensures { result.now ≡ bytes_at bytes.now extent }
{
    let start = extent.start as usize;
    let end = start + extent.length as usize;
    &bytes[start..end]
}
