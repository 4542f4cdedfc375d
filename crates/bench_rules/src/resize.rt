// Another number of samples of one trace.
ghost use Rattle.std.specs.Prelude.{◌≡◌, ◌≤◌, length, IfOk, IfErr, IsErr};
ghost use Rattle.room.specs.Refusals.{Rises};
ghost use Rattle.frame_cut.specs.Frames.{front_length};
ghost use Rattle.trace_view.specs.Shown.{bytes_of, head_of};
ghost use Rattle.bench_rules.specs.Refused.{count_refusal as refusal_of_count, is_sample_count as is_count};
ghost use Rattle.bench_rules.specs.TraceEdits.{resized as bytes_resized, short_count as two_byte_count, with_count};
ghost use Rattle.bench_rules.specs.declared.refusal.Refusal.TheVariants.{OutOfMemory as no_memory};

use crate::refusal::Refusal;
use crate::samples::sample_place;
use crate::trace_bytes::zeros;
use field_map::TRACE_HEADER_BYTES;
use frame_cut::Head;
use num_order::{Kind, write};
use room::Room;
use trace_view::TraceView;

/// The first refusal of m samples in the trace, which stands in a file of `file` bytes that may
/// have `limit` bytes at most: E04, E06, E09. Takes no memory.
pub fn count_refusal(trace: &TraceView<'_>, file: u64, limit: u64, m: i128) -> Option<Refusal>
    requires { length (bytes_of trace.now) ≤ file }
    ensures { result ≡ refusal_of_count (head_of trace.now) file limit (bytes_of trace.now) m }
{
    let head = trace.head();
    if !is_sample_count(head, m) {
        return Some(Refusal::DoesNotFit);
    }
    if head.fixed {
        return Some(Refusal::Frame);
    }
    let rest = file - trace.length();
    let new = sample_place(head.format, trace, m as u32);
    if rest > limit || new > limit - rest {
        return Some(Refusal::TooLarge);
    }
    None
}

/// The bytes of the trace with m samples, as its headers say: its first ones as they were, and
/// zeros behind them. Takes memory for all of them at once; refused for want of it alone.
pub fn resized(room: &mut Room, trace: &TraceView<'_>, m: u32) -> Result<Vec<u8>, Refusal>
    ensures ok { IfOk result (λ bytes. bytes.items ≡ bytes_resized (head_of trace.now)
        (bytes_of trace.now) m) }
    ensures err { IfErr result (λ refusal. refusal ≡ no_memory) }
    ensures memory { Rises (IsErr result) room.old room.new }
{
    let head = trace.head();
    let length = sample_place(head.format, trace, m);
    let mut bytes = zeros(room, length as usize)?;
    let kept = length.min(trace.length()) as usize;
    let all = bytes.as_mut_slice();
    trace.read(0, &mut all[..kept]);
    write_count(head, m, all);
    Ok(bytes)
}

// Whether the headers of a trace can count so many samples.
fn is_sample_count(head: &Head, m: i128) -> bool
    ensures { result ≡ is_count head.now m }
{
    let most = if head.extensions == 0 {
        i128::from(u16::MAX)
    } else {
        i128::from(u32::MAX)
    };
    0 < m && m <= most
}

// Writes the number of samples m into the headers of a trace.
fn write_count(head: &Head, m: u32, trace: &mut [u8])
    requires { front_length head.now ≤ length trace.old }
    ensures { trace.new ≡ with_count head.now m trace.old }
{
    let short = Kind {
        size: 2,
        signed: false,
    };
    let place = 115 - 1;
    write(
        head.order,
        short,
        i128::from(short_count(m)),
        &mut trace[place..place + 2],
    );
    if head.extensions > 0 {
        let wide = Kind {
            size: 4,
            signed: false,
        };
        let place = TRACE_HEADER_BYTES + 137 - 1;
        write(
            head.order,
            wide,
            i128::from(m),
            &mut trace[place..place + 4],
        );
    }
}

// The number of samples for the main header, which has two bytes for it: 0 where they cannot hold
// it.
fn short_count(m: u32) -> u32
    ensures { result ≡ two_byte_count m }
{
    if m > u32::from(u16::MAX) { 0 } else { m }
}
