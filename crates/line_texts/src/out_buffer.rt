// A text on its way to a device, which takes it in large pieces.
ghost use Rattle.std.specs.Prelude.{◌≡◌, ◌≤◌, ◌+◌, ◌++◌, [], length, OnOk};
ghost use Rattle.line_texts.specs.Devices.{device_of};
ghost use Rattle.line_texts.specs.Printing.{Pushes, nothing_out};

use crate::writing::write_text;
use device_io::{Sink, WriteFault};
use std::io::Write;
use std::marker::Model;

// A device takes so many bytes at once, or a longer text.
const ROOM: usize = 32768;

/// What waits to be written, and how many bytes were written before it. It takes no memory.
#[derive(Drop)]
pub struct OutBuffer {
    bytes: [u8; ROOM],
    length: usize,
    written: u64,
}

impl Model for OutBuffer {
    ghost use Rattle.std.specs.Prelude.{take, ◌≤◌};
    ghost use Rattle.line_texts.specs.Printing.{Outgoing};

    ghost Value = { Outgoing };

    ghost view = { λ o. record { waits = take o.length o.bytes; written = o.written } };

    ghost invariant = { λ o. o.length ≤ 32768 };
}

impl OutBuffer {
    pub fn new() -> OutBuffer
        ensures { result ≡ nothing_out }
    {
        OutBuffer {
            bytes: [0; ROOM],
            length: 0,
            written: 0,
        }
    }

    /// Forgets what waits, and counts from 0 again.
    pub fn begin(&mut self)
        ensures { self.new ≡ nothing_out }
    {
        self.length = 0;
        self.written = 0;
    }

    /// How many bytes were written since it began. At `u64::MAX` it stays.
    pub fn written(&self) -> u64
        ensures { result ≡ self.now.written }
    {
        self.written
    }

    /// Puts the text behind what waits. What waits is written before where there is no room for
    /// both. Refused where a write failed; the fault counts all bytes written since it began.
    pub fn push<W: Write>(&mut self, writer: &mut Sink<W>, text: &[u8]) -> Result<(), WriteFault>
        ensures { Pushes (device_of W.contents writer.old) (device_of W.contents writer.new)
            self.old self.new text.now result }
    {
        if text.len() <= ROOM - self.length {
            self.hold(text);
            return Ok(());
        }
        self.flush(writer)?;
        if text.len() <= ROOM {
            self.hold(text);
            return Ok(());
        }
        self.write(writer, text)
    }

    /// Writes what waits. Refused where a write failed; the fault counts all bytes written since it
    /// began.
    pub fn flush<W: Write>(&mut self, writer: &mut Sink<W>) -> Result<(), WriteFault>
        ensures pushed { Pushes (device_of W.contents writer.old) (device_of W.contents writer.new)
            self.old self.new [] result }
        ensures empty { OnOk result (self.new.waits ≡ []) }
    {
        match write_text(writer, &self.bytes[..self.length]) {
            Ok(()) => {
                self.written = self.written.saturating_add(self.length as u64);
                self.length = 0;
                Ok(())
            }
            Err(fault) => Err(WriteFault {
                written: self.written.saturating_add(fault.written),
            }),
        }
    }

    // Puts the text behind what waits.
    fn hold(&mut self, text: &[u8])
        requires { length self.old.waits + length text.now ≤ 32768 }
        ensures waits { self.new.waits ≡ self.old.waits ++ text.now }
        ensures written { self.new.written ≡ self.old.written }
    {
        let end = self.length + text.len();
        self.bytes[self.length..end].copy_from_slice(text);
        self.length = end;
    }

    // Writes the text, where nothing waits.
    fn write<W: Write>(&mut self, writer: &mut Sink<W>, text: &[u8]) -> Result<(), WriteFault>
        requires { self.old.waits ≡ [] }
        ensures { Pushes (device_of W.contents writer.old) (device_of W.contents writer.new)
            self.old self.new text.now result }
    {
        match write_text(writer, text) {
            Ok(()) => {
                self.written = self.written.saturating_add(text.len() as u64);
                Ok(())
            }
            Err(fault) => Err(WriteFault {
                written: self.written.saturating_add(fault.written),
            }),
        }
    }
}
