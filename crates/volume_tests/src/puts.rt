// What a put or a new trace asks of a volume, told when it runs.
ghost use Rattle.std.specs.Prelude.{◌≡◌, ◌≤◌, ◌+◌, length, IsTrue};
ghost use Rattle.frame_cut.specs.Cuts.{IsTrace};
ghost use Rattle.frame_cut.specs.Splice.{splice};
ghost use Rattle.frame_cut.specs.Traces.{trace_at, is_trace as has_trace};
ghost use Rattle.edit_overlay.specs.CountedVolume.{IsSeen};
ghost use Rattle.edit_overlay.specs.Reads.{HaveAgreed};

use edit_overlay::Overlay;
use frame_cut::{Head, front_length, trace_length};
use room::Room;
use std::alloc::Global;
use std::test::Fail;

// Whether the bytes are a whole trace.
pub(crate) fn is_trace(head: &Head, bytes: &[u8]) -> bool
    ensures { IsTrue result → IsTrace head.now bytes.now }
{
    if bytes.len() < front_length(head) {
        return false;
    }
    trace_length(head, bytes) == Some(bytes.len() as u64)
}

// Whether trace p can be read, and is as long as its headers say with the bytes laid over it.
pub(crate) fn may_put<T: Copy>(volume: &mut Overlay<T>, p: u32, at: u64, bytes: &[u8]) -> bool
    ensures seen { IsSeen volume.old volume.new 1 }
    ensures inside { IsTrue result → at + length bytes.now ≤ length (trace_at volume.old.volume p) }
    ensures there { IsTrue result → IsTrue (has_trace volume.old.volume p) }
    ensures whole { IsTrue result → HaveAgreed volume.new.reads →
        IsTrace volume.old.volume.head (splice (trace_at volume.old.volume p) at (length bytes.now)
        bytes.now) }
{
    let Ok(Some(view)) = volume.look(p) else {
        return false;
    };
    let length = view.length();
    let size = bytes.len() as u64;
    if size > length || at > length - size {
        return false;
    }
    view.changed_length(at, bytes) == Some(length)
}

pub(crate) fn put<T: Copy>(
    alloc: Global,
    volume: &mut Overlay<T>,
    p: u32,
    at: u64,
    bytes: &[u8],
) -> Result<(), Fail> {
    if !may_put(volume, p, at, bytes) {
        return Err(Fail::from("no place for the bytes"));
    }
    volume.prepare_put(&mut Room::new(alloc), p, at, bytes)?;
    volume.commit();
    Ok(())
}
