//! The sample formats of SEG-Y revision 2.0: their codes in the binary file header (bytes 3225-3226
//! of the file), how many bytes a sample has, and of the ten integer formats and the three of
//! floats samples read from bytes and written to them. A sample of floats is read as a whole
//! number, its rank (`float_codes`). Where floats are not asked for they are opaque, bytes without
//! a value, as those of fixed point with gain are.
//!
//! No call takes memory. Only `Format::of` can fail, and says why.
#![tactic(auto)]

mod format;
mod format_fault;
mod integer_format;
mod opaque_format;
mod value_format;

pub use crate::format::Format;
pub use crate::format_fault::FormatFault;
pub use crate::integer_format::IntegerFormat;
pub use crate::opaque_format::OpaqueFormat;
pub use crate::value_format::ValueFormat;
