// Writes texts to a device.
ghost use Rattle.std.specs.Prelude.{MatchResult};
ghost use Rattle.line_texts.specs.Devices.{Takes, TakesPart, device_of};

use device_io::{Sink, WriteFault};
use std::io::Write;

/// Writes the text, all of it or a first part.
pub fn write_text<W: Write>(writer: &mut Sink<W>, text: &[u8]) -> Result<(), WriteFault>
    ensures { let old = device_of W.contents writer.old in
        let new = device_of W.contents writer.new in
        MatchResult result (λ _. Takes old new text.now)
        (λ fault. TakesPart old new text.now fault.written) }
{
    writer.write_all(text)
}
