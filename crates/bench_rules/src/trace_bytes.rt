// Bytes of samples and of whole traces.
ghost use Rattle.std.specs.Prelude.{◌≡◌, ◌<◌, ◌≤◌, ◌^◌, length, replicate, IsTrue, IfOk, IfErr, IsErr};
ghost use Rattle.std.specs.List.{list_all};
ghost use Rattle.room.specs.Refusals.{Rises};
ghost use Rattle.sample_codes.specs.Formats.{sample_fits, samples_bytes as bytes_of_samples};
ghost use Rattle.frame_cut.specs.Frames.{length_with};
ghost use Rattle.trace_view.specs.Shown.{bytes_of};
ghost use Rattle.bench_rules.specs.declared.refusal.Refusal.TheVariants.{OutOfMemory as no_memory};

use crate::refusal::Refusal;
use field_map::TRACE_HEADER_BYTES;
use frame_cut::Head;
use num_order::Order;
use room::Room;
use sample_codes::ValueFormat;
use trace_view::TraceView;

/// Whether the format has each of the values.
pub fn all_fit(format: ValueFormat, values: &[i128]) -> bool
    ensures { result ≡ list_all (sample_fits format) values.now }
{
    for value in values {
        if !format.fits(*value) {
            return false;
        }
    }
    true
}

/// The bytes of the values as samples, one after another. Takes memory for all of them at once.
pub fn samples_bytes(
    room: &mut Room,
    order: Order,
    format: ValueFormat,
    values: &[i128],
) -> Result<Vec<u8>, Refusal>
    requires few { length values.now ≤ 2 ^ 40 }
    requires fit { IsTrue (list_all (sample_fits format) values.now) }
    ensures ok { IfOk result (λ bytes. bytes.items ≡ bytes_of_samples order format values.now) }
    ensures err { IfErr result (λ refusal. refusal ≡ no_memory) }
    ensures memory { Rises (IsErr result) room.old room.new }
{
    let width = usize::from(format.width());
    let mut bytes = room.told(Vec::with_capacity(room.alloc(), width * values.len()))?;
    let mut buffer = [0u8; 8];
    for value in values {
        let sample = &mut buffer[..width];
        format.encode(order, *value, sample);
        room.told(bytes.extend_from_slice(sample))?;
    }
    Ok(bytes)
}

/// The bytes of so many samples of one value, one after another. Takes memory for all of them at
/// once.
pub fn repeated_sample(
    room: &mut Room,
    order: Order,
    format: ValueFormat,
    value: i128,
    count: u32,
) -> Result<Vec<u8>, Refusal>
    requires fits { IsTrue (sample_fits format value) }
    ensures ok { IfOk result (λ bytes.
        bytes.items ≡ bytes_of_samples order format (replicate count value)) }
    ensures err { IfErr result (λ refusal. refusal ≡ no_memory) }
    ensures memory { Rises (IsErr result) room.old room.new }
{
    let width = usize::from(format.width());
    let mut bytes = room.told(Vec::with_capacity(room.alloc(), width * count as usize))?;
    let mut buffer = [0u8; 8];
    let sample = &mut buffer[..width];
    format.encode(order, value, sample);
    let sample: &[u8] = sample;
    for _done in 0..count {
        room.told(bytes.extend_from_slice(sample))?;
    }
    Ok(bytes)
}

/// The trace's bytes in one vector. Takes memory for all of them at once.
pub fn joined(room: &mut Room, trace: &TraceView<'_>) -> Result<Vec<u8>, Refusal>
    ensures ok { IfOk result (λ bytes. bytes.items ≡ bytes_of trace.now) }
    ensures err { IfErr result (λ refusal. refusal ≡ no_memory) }
    ensures memory { Rises (IsErr result) room.old room.new }
{
    let mut bytes = room.told(Vec::with_capacity(room.alloc(), trace.length() as usize))?;
    for piece in trace.pieces() {
        room.told(bytes.extend_from_slice(piece))?;
    }
    Ok(bytes)
}

/// So many zeros.
pub fn zeros(room: &mut Room, count: usize) -> Result<Vec<u8>, Refusal>
    ensures ok { IfOk result (λ bytes. bytes.items ≡ replicate count 0) }
    ensures err { IfErr result (λ refusal. refusal ≡ no_memory) }
    ensures memory { Rises (IsErr result) room.old room.new }
{
    Ok(room.told(vec![in room.alloc(); 0u8; count])?)
}

/// How many bytes a trace of zeros has: its headers, and the samples that the binary header says.
pub fn blank_length(head: &Head) -> u64
    ensures length { result ≡ length_with head.now head.now.extensions head.now.samples }
    ensures small { result < 2 ^ 40 }
{
    TRACE_HEADER_BYTES as u64 * (1 + u64::from(head.extensions))
        + u64::from(head.format.width()) * u64::from(head.samples)
}
