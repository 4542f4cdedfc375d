// What is seen of a file that ends inside a trace, for whoever has to find out why.
ghost use Rattle.std.specs.Prelude.{◌≤◌, length, IfSome};

use frame_cut::{
    FILE_HEADER_BYTES, Head, Limits, Reading, front_length, head_of_front, length_of_next,
    sample_count,
};
use script_hints::TornFile;
use std::alloc::Global;
use std::fs;
use std::fs::{File, OpenFile};
use std::os::unix::fs::FileExt;
use std::rt::Files;
use text_block::TEXT_BLOCK_BYTES;

// So many bytes are read for the head, and at most so many traces are passed over: enough for a
// hint, which comes at once.
const FRONT: u64 = 1 << 20;

const TRACES: u64 = 1_000_000;

// The main header of a trace with its first extension.
const HEADERS: usize = 480;

/// A file that was opened again, how many bytes it has, and the first of them.
#[derive(Drop)]
pub(crate) struct Front {
    pub file: File,
    pub size: u64,
    pub bytes: Vec<u8>,
}

/// Looks at FILE again, which ends inside this trace. `None` where no more is to be said: it is no
/// file on disk, or another one by now, or the trace lies far behind.
pub(crate) fn torn_file<R: Files<File = File> + AllocGlobal>(
    rt: &R,
    path: &str,
    reading: Reading,
    limits: Limits,
    trace: u64,
) -> Option<TornFile> {
    let Front { file, size, bytes } = front_of_file(rt, path)?;
    let head = head_of_front(bytes.as_slice(), size, reading, limits).ok()??;
    let records = u64::from(head.trailer) * TEXT_BLOCK_BYTES as u64;
    let end = size.checked_sub(records)?;
    let at = trace_at(&file, &head, limits, end, trace)?;
    let inside = end.checked_sub(at)?;
    let samples = even_samples(&file, &head, limits, end);
    Some(TornFile {
        inside,
        even: samples,
        is_fixed: !head.fixed && head.extensions == 0 && samples == Some(head.samples),
    })
}

/// FILE, opened again, with its size and its first bytes. `None` where it is no file on disk, or
/// cannot be read.
pub(crate) fn front_of_file<R: Files<File = File> + AllocGlobal>(
    rt: &R,
    path: &str,
) -> Option<Front>
    ensures { IfSome result (λ front. length front.bytes.items ≤ front.size) }
{
    // To open a pipe again would wait for a writer.
    if !fs::metadata(rt, path).ok()?.is_file() {
        return None;
    }
    let file = fs::open(rt, path).ok()?;
    let size = file.metadata().ok()?.len();
    let bytes = read_front(rt.alloc(), &file, size)?;
    if bytes.len() as u64 > size {
        return None;
    }
    Some(Front { file, size, bytes })
}

// The first bytes of the file.
fn read_front<F: FileExt>(alloc: Global, file: &F, size: u64) -> Option<Vec<u8>> {
    let most = size.min(FRONT) as usize;
    let mut front = Vec::new(alloc);
    front.resize(most, 0).ok()?;
    if is_read(file, 0, front.as_mut_slice()) {
        Some(front)
    } else {
        None
    }
}

/// Whether all these bytes are read from this place on.
pub(crate) fn is_read<F: FileExt>(file: &F, at: u64, out: &mut [u8]) -> bool {
    let mut done = 0usize;
    for _ in 0..out.len() {
        if done >= out.len() {
            return true;
        }
        let Some(place) = at.checked_add(done as u64) else {
            return false;
        };
        match file.read_at(&mut out[done..], place) {
            Ok(0) | Err(_) => return false,
            Ok(count) => done = done.saturating_add(count),
        }
    }
    done >= out.len()
}

// Where this trace begins.
fn trace_at<F: FileExt>(
    file: &F,
    head: &Head,
    limits: Limits,
    end: u64,
    trace: u64,
) -> Option<u64> {
    if trace > TRACES {
        return None;
    }
    let mut at = head.traces_at;
    for p in 1..trace {
        let left = end.checked_sub(at)?;
        let mut front = [0u8; HEADERS];
        let count = front_length(head)
            .min(HEADERS)
            .min(left.min(HEADERS as u64) as usize);
        if !is_read(file, at, &mut front[..count]) {
            return None;
        }
        let length = length_of_next(head, limits, p, &front[..count], left).ok()?;
        at = at.checked_add(length)?;
    }
    Some(at)
}

// The number of samples, of those that the headers name, with which all traces together are as long
// as their part of the file: the binary header's, else the first trace's own.
fn even_samples<F: FileExt>(file: &F, head: &Head, limits: Limits, end: u64) -> Option<u32> {
    let all = end.checked_sub(head.traces_at)?;
    if is_even(head, limits, all, head.samples) {
        return Some(head.samples);
    }
    let own = first_samples(file, head, end)?;
    if is_even(head, limits, all, own) {
        Some(own)
    } else {
        None
    }
}

/// The number of samples that the headers of the first trace say, in a file of so many bytes.
pub(crate) fn first_samples<F: FileExt>(file: &F, head: &Head, size: u64) -> Option<u32> {
    let left = size.checked_sub(head.traces_at)?;
    let count = left.min(HEADERS as u64) as usize;
    let mut front = [0u8; HEADERS];
    if count < front_length(head) || !is_read(file, head.traces_at, &mut front[..count]) {
        return None;
    }
    Some(sample_count(
        &Head {
            fixed: false,
            ..*head
        },
        &front,
    ))
}

/// Whether traces of so many samples, and no fewer header extensions than the file allows, are
/// together as long as this.
pub(crate) fn is_even(head: &Head, limits: Limits, all: u64, samples: u32) -> bool {
    let headers = 240 * (1 + u64::from(head.extensions));
    let length = headers + u64::from(samples) * u64::from(head.format.width());
    all > 0 && all % length == 0 && all / length <= u64::from(limits.traces())
}
