//! Lines of text on their way to a device, which take no memory. A line is built in a
//! [`TextBuffer`], or from its end in a [`TextFromEnd`], where its numbers are written in their
//! place; an [`OutBuffer`] holds lines until there are many to be written at once.
#![tactic(auto)]

mod out_buffer;
mod text_buffer;
mod text_from_end;
mod writing;

pub use crate::out_buffer::OutBuffer;
pub use crate::text_buffer::TextBuffer;
pub use crate::text_from_end::TextFromEnd;
pub use crate::writing::write_text;
