// What is read ahead of the lines that are taken from it.
ghost use Rattle.std.specs.Prelude.{◌≡◌, ◌≤◌, ◌==◌, ℕ, length, [], OnOk};
ghost use Rattle.std.specs.Io.KnownBytes.{Consumes, IsAtEnd};
ghost use Rattle.device_io.specs.Failures.{CountsFailure};
ghost use Rattle.script_run.specs.Input.{IsLostWithCause, IsPartTaken};

use crate::held_line::HeldLine;
use device_io::{Failed, Source};
use room::Room;
use script_words::split_once;
use std::io::Read;
use std::marker::Model;

// How many bytes are asked for at once.
const ROOM: usize = 65536;

/// The bytes that were read and not taken yet. It takes no memory.
#[derive(Drop)]
pub(crate) struct ReadAhead {
    bytes: [u8; ROOM],
    from: usize,
    to: usize,
}

impl Model for ReadAhead {
    ghost use Rattle.std.specs.Prelude.{ℕ, List, ◌≤◌, slice_range};

    ghost Value = { List ℕ };

    ghost view = { λ r. slice_range r.bytes r.from r.to };

    ghost invariant = { λ r. (r.from ≤ r.to) × (r.to ≤ 65536) };
}

impl ReadAhead {
    pub(crate) fn new() -> ReadAhead
        ensures { result ≡ [] }
    {
        ReadAhead {
            bytes: [0; ROOM],
            from: 0,
            to: 0,
        }
    }

    /// Whether all of them are taken.
    pub(crate) fn is_empty(&self) -> bool
        ensures { result ≡ (length self.now == 0) }
    {
        self.from == self.to
    }

    /// Reads more, by one read, where none is left: some, or none at the reader's end.
    pub(crate) fn fill<S: Read>(&mut self, source: &mut Source<S>) -> Result<(), Failed>
        requires { self.old ≡ [] }
        ensures bytes { OnOk result (Consumes (S.remaining source.old.inner)
            (S.remaining source.new.inner) self.new) }
        ensures end { OnOk result (self.new ≡ [] → IsAtEnd (S.remaining source.new.inner)) }
        ensures failures { CountsFailure result source.old.failures source.new.failures }
    {
        self.from = 0;
        self.to = 0;
        self.to = source.read(&mut self.bytes)?;
        Ok(())
    }

    /// Takes what stands in front of the next line feed onto the line, and passes over the line
    /// feed; where there is none, takes all. Tells whether there was one.
    pub(crate) fn take_part(&mut self, room: &mut Room, line: &mut HeldLine) -> bool
        ensures part { IsPartTaken self.old self.new line.old line.new result }
        ensures lost { (first : ℕ) → first ≤ room.old → IsLostWithCause line.old first room.old →
            IsLostWithCause line.new first room.new }
        ensures never_falls { room.old ≤ room.new }
    {
        let waiting = &self.bytes[self.from..self.to];
        match split_once(waiting, b'\n') {
            Some((part, _rest)) => {
                line.add(room, part);
                self.from += part.len() + 1;
                true
            }
            None => {
                line.add(room, waiting);
                self.from = self.to;
                false
            }
        }
    }
}
