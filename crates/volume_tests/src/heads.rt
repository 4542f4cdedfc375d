// Heads of files, and runs of bytes, that several tests begin with.
ghost use Rattle.std.specs.Prelude.{◌≡◌, IfOk};

use frame_cut::Head;
use num_order::Order;
use sample_codes::{Format, IntegerFormat, ValueFormat};
use smallvec::SmallVec;
use std::alloc::{AllocError, Global};
use trace_view::Run;

// Samples that are whole numbers.
pub(crate) fn integers(format: IntegerFormat) -> Format {
    Format::Valued(ValueFormat::Integer(format))
}

// Big-endian, revision 1.0, 16-bit samples, two a trace, in traces of one length.
pub(crate) fn plain_head() -> Head
    ensures { result.extensions ≡ 0 }
{
    head_of(Order::Big, integers(IntegerFormat::Signed16), 2)
}

// So many samples of this format a trace, and no header extensions.
pub(crate) fn head_of(order: Order, format: Format, samples: u32) -> Head
    ensures { result.extensions ≡ 0 }
{
    Head {
        order,
        major: 1,
        minor: 0,
        format,
        samples,
        fixed: true,
        extensions: 0,
        blocks: 0,
        trailer: 0,
        traces_at: 3600,
    }
}

// Up to three header extensions a trace, and each its own number of samples.
pub(crate) fn counted_head() -> Head {
    let mut head = plain_head();
    head.major = 2;
    head.fixed = false;
    head.extensions = 3;
    head
}

pub(crate) fn run(alloc: Global, at: u64, bytes: &[u8]) -> Result<Run, AllocError>
    ensures { IfOk result (λ r. (r.at ≡ at) × (r.bytes.items ≡ bytes.now)) }
{
    Ok(Run {
        at,
        bytes: SmallVec::from_slice(alloc, bytes)?,
    })
}
