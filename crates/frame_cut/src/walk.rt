// The walk over the traces of a file: where each one lies, or why one is refused.
ghost use Rattle.std.specs.Prelude.{◌≡◌, ◌+◌, ◌*◌, ◌<◌, ◌≤◌, ◌&&◌, ◌↔◌, ◌⊎◌, ℕ, List, [], true, length, Some, None, IfOk, IfErr, IsErr, IsErrOf, IsSome, IfSome};
ghost use Rattle.std.specs.Option.{ForSome};
ghost use Rattle.room.specs.Refusals.{Rises};
ghost use Rattle.frame_cut.specs.declared.extent.Extent.{Extent};
ghost use Rattle.frame_cut.specs.Frames.{trace_length as trace_length_of, front_length as front_length_of};
ghost use Rattle.frame_cut.specs.declared.file_head.Head.{Head};
ghost use Rattle.frame_cut.specs.declared.limits.Limits.{Limits};
ghost use Rattle.frame_cut.specs.Cuts.{is_torn, trace_refusal};
ghost use Rattle.frame_cut.specs.Fronts.{BeginsWith};
ghost use Rattle.frame_cut.specs.Walk.{AreWhole, EndsAt, StopsAt, IsFixedLength};

use crate::extent::Extent;
use crate::file_head::Head;
use crate::frames::{front_length, length_with, trace_length};
use crate::limits::Limits;
use crate::load_fault::LoadFault;
use crate::reading::Reading;
use room::{OutOfMemory, Room};
use text_block::TEXT_BLOCK_BYTES;

// Where the traces of a file with this head lie, and where the last of them ends.
pub(crate) fn walk(
    room: &mut Room,
    head: &Head,
    reading: Reading,
    limits: Limits,
    bytes: &[u8],
) -> Result<(Vec<Extent>, usize), LoadFault>
    requires { head.now.traces_at + TEXT_BLOCK_BYTES * head.now.trailer ≤ length bytes.now }
    ensures ends { IfOk result (λ walked.
        EndsAt bytes.now reading head.now limits walked.0.items walked.1) }
    ensures stops { IfErr result (λ fault. (fault ≡ LoadFault.OutOfMemory)
        ⊎ ((extents : List Extent) × (at : ℕ) ×
        StopsAt bytes.now reading head.now limits extents at fault)) }
    ensures memory { Rises (IsErrOf result LoadFault.OutOfMemory) room.old room.new }
{
    let end = bytes.len() - TEXT_BLOCK_BYTES * head.trailer as usize;
    let mut at = head.traces_at as usize;
    let fixed = fixed_length(head);
    let Ok(mut extents) = empty_list(room, fixed, (end - at) as u64, limits) else {
        return Err(LoadFault::OutOfMemory);
    };
    'traces: while at < end {
        let trace = extents.len() as u64 + 1;
        let left = (end - at) as u64;
        let length = match next_length(head, fixed, limits, trace, &bytes[at..end], left) {
            Ok(length) => length,
            Err(fault) if keeps(reading, fault) => return Ok((extents, at)),
            Err(fault) => return Err(fault),
        };
        let extent = Extent {
            start: at as u64,
            length,
        };
        let Ok(()) = room.told_back(extents.push(extent)) else {
            return Err(LoadFault::OutOfMemory);
        };
        at += length as usize;
    }
    Ok((extents, at))
}

/// Whether the reading keeps what is left where a trace is refused for this reason: less than a
/// trace (L14), which is a tail then. Takes no memory.
pub fn keeps(reading: Reading, fault: LoadFault) -> bool
    ensures { (head : Head) → (limits : Limits) → (p : ℕ) → (rest : List ℕ) →
        trace_refusal head limits p rest ≡ Some fault →
        result ≡ (reading.tail && is_torn head rest) }
{
    reading.tail && matches!(fault, LoadFault::Truncated(_))
}

// The length of every trace, where it is one whatever their headers say.
fn fixed_length(head: &Head) -> Option<u64>
    ensures when { IsSome result ↔ ((head.now.fixed ≡ true) × (head.now.extensions ≡ 0)) }
    ensures length { IfSome result (IsFixedLength head.now) }
    ensures some { IfSome result (λ length. 0 < length) }
{
    if head.fixed && head.extensions == 0 {
        Some(length_with(head, 0, head.samples))
    } else {
        None
    }
}

// An empty list, with memory for all traces where their number is known from their length.
fn empty_list(
    room: &mut Room,
    fixed: Option<u64>,
    left: u64,
    limits: Limits,
) -> Result<Vec<Extent>, OutOfMemory>
    requires { ForSome fixed (λ length. 0 < length) }
    ensures empty { IfOk result (λ extents. extents.items ≡ []) }
    ensures memory { Rises (IsErr result) room.old room.new }
{
    match fixed {
        Some(length) => {
            let traces = (left / length).min(u64::from(limits.traces())) as usize;
            room.told(Vec::with_capacity(room.alloc(), traces))
        }
        None => Ok(Vec::new(room.alloc())),
    }
}

/// The length of trace p of a file with this head, where so many bytes are left for it and the
/// traces behind it, of which these are the first: the trace's front, or all that are left. Else
/// why it is refused, the first of these: the bytes that are left end in its front (L14), its first
/// header extension names too many of them (L13), they end in it (L14), it is one more than the
/// limit (L15). Traces count from 1. Takes no memory.
pub fn length_of_next(
    head: &Head,
    limits: Limits,
    p: u64,
    front: &[u8],
    left: u64,
) -> Result<u64, LoadFault>
    requires inside { length front.now ≤ left }
    requires there { front_length_of head.now ≤ left → front_length_of head.now ≤ length front.now }
    ensures whole { IfOk result (λ length. (rest : List ℕ) → BeginsWith front.now left rest →
        (trace_refusal head.now limits p rest ≡ None)
        × (trace_length_of head.now rest ≡ Some length)) }
    ensures fits { IfOk result (λ length. length ≤ left) }
    ensures refused { IfErr result (λ fault. (rest : List ℕ) → BeginsWith front.now left rest →
        trace_refusal head.now limits p rest ≡ Some fault) }
{
    next_length(head, fixed_length(head), limits, p, front, left)
}

// The same, with the length that every trace has where there is one.
fn next_length(
    head: &Head,
    fixed: Option<u64>,
    limits: Limits,
    trace: u64,
    front: &[u8],
    left: u64,
) -> Result<u64, LoadFault>
    requires fixed { ForSome fixed (IsFixedLength head.now) }
    requires inside { length front.now ≤ left }
    requires there { front_length_of head.now ≤ left → front_length_of head.now ≤ length front.now }
    ensures whole { IfOk result (λ length. (rest : List ℕ) → BeginsWith front.now left rest →
        (trace_refusal head.now limits trace rest ≡ None)
        × (trace_length_of head.now rest ≡ Some length)) }
    ensures fits { IfOk result (λ length. length ≤ left) }
    ensures refused { IfErr result (λ fault. (rest : List ℕ) → BeginsWith front.now left rest →
        trace_refusal head.now limits trace rest ≡ Some fault) }
{
    if left < front_length(head) as u64 {
        return Err(LoadFault::Truncated(trace));
    }
    let Some(length) = length_here(head, fixed, front) else {
        return Err(LoadFault::ExtensionCount(trace));
    };
    if left < length {
        return Err(LoadFault::Truncated(trace));
    }
    if trace > u64::from(limits.traces()) {
        return Err(LoadFault::TooManyTraces);
    }
    Ok(length)
}

// The length of the trace with this front, if its headers give it one.
fn length_here(head: &Head, fixed: Option<u64>, front: &[u8]) -> Option<u64>
    requires fixed { ForSome fixed (IsFixedLength head.now) }
    requires front { front_length_of head.now ≤ length front.now }
    ensures { result ≡ trace_length_of head.now front.now }
{
    match fixed {
        Some(length) => Some(length),
        None => trace_length(head, front),
    }
}
