ghost use Rattle.std.specs.Prelude.{◌≡◌, ◌+◌, ◌*◌, ◌^◌, ◌<◌, pos, int_lt};
ghost use Rattle.trace_record.specs.Packable.{HaveRange, HaveRange-prop, amplitudes_from};
ghost use Rattle.trace_record.specs.Parts.{FitsWord, FitsSum, signed_of};

use crate::{Amplitudes, Record};
use key_counts::PackedRatio;
use std::mem::size_of;

// How many numbers the low 64 bits of a sample hold.
const SAMPLE: i128 = 0x1_0000_0000_0000_0000;

// How many numbers the low 96 bits of a sum hold.
const SUM: i128 = 0x1_0000_0000_0000_0000_0000_0000;

// How many of them the low 64 bits hold.
const SUM_LOW: u128 = 0x1_0000_0000_0000_0000;

// What stands for no amplitudes: no least sample is so small.
const NONE: Amplitudes = Amplitudes {
    least: -SAMPLE,
    greatest: 0,
    sum: 0,
};

/// A `Record` in 72 bytes. The least, the greatest and the sum are kept without their signs, which
/// stand among the flags of `x` and `y`: the first flag of `x` is the sign of the least, the second
/// that of the greatest, the first flag of `y` that of the sum; the second flag of `y` says whether
/// the name is a known one. A least of -2^64 stands for no amplitudes.
#[derive(Clone, Copy)]
pub struct PackedRecord {
    least: u64,
    greatest: u64,
    sum: u64,
    x: PackedRatio,
    y: PackedRatio,
    sum_high: u32,
    inline: i32,
    crossline: i32,
    offset: i32,
    sequence: i32,
    number: u32,
    scalar: i16,
    units: i16,
    interval: u16,
    samples_field: u16,
    pub ghost range: { HaveRange
        (amplitudes_from x.bits y.bits least greatest sum_high sum) number } by { HaveRange-prop (amplitudes_from x.bits y.bits least greatest sum_high sum) number },
}

const _: () = prove!(size_of::<PackedRecord>() == 72);

impl PackedRecord {
    ghost use Rattle.std.specs.Prelude.{◌≡◌};
    ghost use Rattle.trace_record.specs.Packed.{amplitudes_in, cell_of, record_in};

    /// The record in 72 bytes.
    pub fn of(trace: Record) -> PackedRecord
        ensures { record_in result ≡ trace }
    {
        let amplitudes = trace.amplitudes.unwrap_or(NONE);
        let sum = bits_of_sum(amplitudes.sum);
        PackedRecord {
            least: bits_of_sample(amplitudes.least),
            greatest: bits_of_sample(amplitudes.greatest),
            sum: (sum % SUM_LOW) as u64,
            x: PackedRatio::of(trace.x, amplitudes.least < 0, amplitudes.greatest < 0),
            y: PackedRatio::of(trace.y, amplitudes.sum < 0, trace.has_known_name),
            sum_high: (sum / SUM_LOW) as u32,
            inline: trace.inline,
            crossline: trace.crossline,
            offset: trace.offset,
            sequence: trace.sequence,
            number: trace.number,
            scalar: trace.scalar,
            units: trace.units,
            interval: trace.interval,
            samples_field: trace.samples_field,
        }
    }

    /// The record.
    #[inline]
    pub fn record(self) -> Record
        ensures { result ≡ record_in self }
    {
        Record {
            amplitudes: self.amplitudes(),
            x: self.x.ratio(),
            y: self.y.ratio(),
            inline: self.inline,
            crossline: self.crossline,
            offset: self.offset,
            sequence: self.sequence,
            number: self.number,
            scalar: self.scalar,
            units: self.units,
            interval: self.interval,
            samples_field: self.samples_field,
            has_known_name: self.y.second(),
        }
    }

    /// Its inline and its crossline. Takes no memory.
    #[inline]
    pub fn cell(self) -> (i32, i32)
        ensures { result ≡ cell_of (record_in self) }
    {
        (self.inline, self.crossline)
    }

    #[inline]
    fn amplitudes(self) -> Option<Amplitudes>
        ensures { result ≡ amplitudes_in self }
    {
        if self.x.first() && self.least == 0 {
            return None;
        }
        Some(Amplitudes {
            least: sample_of(self.x.first(), self.least),
            greatest: sample_of(self.x.second(), self.greatest),
            sum: sum_of(self.y.first(), self.sum_high, self.sum),
        })
    }
}

// The low 64 bits of a sample, or of -2^64.
fn bits_of_sample(sample: i128) -> u64
    requires { FitsWord sample }
    ensures { signed_of (int_lt sample (pos 0)) (2 ^ 64) result ≡ sample }
{
    let from_zero = if sample < 0 { sample + SAMPLE } else { sample };
    from_zero as u64
}

// The sample of which these are the low 64 bits.
#[inline]
fn sample_of(is_negative: bool, bits: u64) -> i128
    ensures { result ≡ signed_of is_negative (2 ^ 64) bits }
{
    i128::from(bits) - if is_negative { SAMPLE } else { 0 }
}

// The low 96 bits of a sum.
fn bits_of_sum(sum: i128) -> u128
    requires { FitsSum sum }
    ensures value { signed_of (int_lt sum (pos 0)) (2 ^ 96) result ≡ sum }
    ensures size { result < 2 ^ 96 }
{
    let from_zero = if sum < 0 { sum + SUM } else { sum };
    from_zero as u128
}

// The sum of which these are the low 96 bits.
#[inline]
fn sum_of(is_negative: bool, high: u32, low: u64) -> i128
    ensures { result ≡ signed_of is_negative (2 ^ 96) (high * 2 ^ 64 + low) }
{
    let from_zero = i128::from(high) * SAMPLE + i128::from(low);
    from_zero - if is_negative { SUM } else { 0 }
}
