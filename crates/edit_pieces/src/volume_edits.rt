// The pieces of a volume's edits.
ghost use Rattle.std.specs.Prelude.{◌≡◌, ◌+◌, ◌≤◌, length, false, IfOk};
ghost use Rattle.frame_cut.specs.Volume.{bytes_of};
ghost use Rattle.journal_save.specs.Disk.{laid_all};
ghost use Rattle.journal_save.specs.Walking.{IsNext};
ghost use Rattle.edit_overlay.specs.Held.{volume_with, HasEnds};
ghost use Rattle.edit_pieces.specs.Changes.{header_left};
ghost use Rattle.edit_pieces.specs.Pieces.{pieces_of, ArePiecesOf};
ghost use Rattle.edit_pieces.specs.Told.{IsTold};

use crate::change::Change;
use crate::in_place::unfit_in;
use crate::runs_walk::RunsWalk;
use crate::unfit::Unfit;
use base_file::Held;
use frame_cut::BINARY_HEADER_BYTES;
use journal_codes::{Head, PIECE_ROOM};
use journal_save::Edits;
use std::marker::Model;
use std::mem;
use text_block::TEXT_BLOCK_BYTES;
use trace_store::TraceStore;

/// The pieces of a volume's edits, each a place in the file, counted from 0, and the bytes that go
/// there, 1 to 65,536 of them. A walk holds no list of them: it goes along the traces. Seen as all
/// pieces and those that the walk has still to give. No call takes memory, reads the file, looks at
/// a trace or fails.
#[derive(Drop)]
pub struct VolumeEdits<'a, T: Copy> {
    text: &'a [u8; TEXT_BLOCK_BYTES],
    bin: &'a [u8; BINARY_HEADER_BYTES],
    store: &'a TraceStore<T>,

    // What is left of the change that is being given; the binary header, where it is still to be
    // given; and the runs behind.
    current: Change<'a>,
    header: Change<'a>,
    traces: RunsWalk<'a, T>,
}

impl<'a, T: Copy> Model for VolumeEdits<'a, T> {
    ghost use Rattle.edit_pieces.specs.Walks.{Walk};
    ghost use Rattle.edit_pieces.specs.PiecesLeft.{walk_of, IsWalk};

    ghost Value = { Walk };

    ghost view = { walk_of };

    ghost invariant = { IsWalk };
}

/// The pieces of the edits of a volume with these headers, traces and so many bytes of no trace
/// behind them, none of which was given yet. Refused where the edits did not leave the order, the
/// number and the lengths of the traces, or those bytes, as they were, with the first trace that is
/// not at its place. Goes over the traces once; takes no
/// memory, reads no bytes of the file and looks at no trace.
pub fn edits_over<'a, T: Copy>(
    text: &'a [u8; TEXT_BLOCK_BYTES],
    bin: &'a [u8; BINARY_HEADER_BYTES],
    tail: u64,
    store: &'a TraceStore<T>,
) -> Result<VolumeEdits<'a, T>, Unfit>
    requires { HasEnds store.now tail }
    ensures law { IfOk result (λ edits. laid_all edits.all store.now.loaded.bytes
        ≡ bytes_of (volume_with text.now bin.now tail store.now)) }
    ensures inside { IfOk result
        (λ edits. ArePiecesOf (length store.now.loaded.bytes) edits.all) }
    ensures begun { IfOk result (λ edits. edits.left ≡ edits.all) }
    ensures told { IsTold text.now bin.now tail store.now result }
{
    match unfit_in(tail, store) {
        Some(unfit) => Err(unfit),
        None => Ok(VolumeEdits::new(text, bin, store)),
    }
}

impl<'a, T: Copy> VolumeEdits<'a, T> {
    // All pieces, none of which was given yet.
    fn new(
        text: &'a [u8; TEXT_BLOCK_BYTES],
        bin: &'a [u8; BINARY_HEADER_BYTES],
        store: &'a TraceStore<T>,
    ) -> VolumeEdits<'a, T>
        requires { HasEnds store.now 0 }
        ensures { result ≡ record {
          all = pieces_of text.now bin.now store.now;
          left = pieces_of text.now bin.now store.now;
        } }
    {
        VolumeEdits {
            text,
            bin,
            store,
            current: header_change(&store.loaded, 0, text),
            header: header_change(&store.loaded, TEXT_BLOCK_BYTES as u64, bin),
            traces: RunsWalk::new(store),
        }
    }

    // Begins a walk.
    pub(crate) fn begin(&mut self)
        ensures all { self.new.all ≡ self.old.all }
        ensures left { self.new.left ≡ self.old.all }
    {
        *self = VolumeEdits::new(self.text, self.bin, self.store);
    }

    // The next piece, whose bytes begin the room, if there is one.
    pub(crate) fn next(&mut self, room: &mut [u8]) -> Option<Head>
        requires { length room.old ≡ PIECE_ROOM }
        ensures all { self.new.all ≡ self.old.all }
        ensures piece { IsNext result room.new self.old.left self.new.left }
    {
        if self.current.bytes.is_empty() {
            self.current = mem::replace(&mut self.header, Change::none());
        }
        if self.current.bytes.is_empty() {
            self.current = self.traces.next()?;
        }
        Some(self.current.give(room))
    }
}

// A header at its place, without its bytes where the file has them there.
fn header_change<'a>(loaded: &Held, at: u64, header: &'a [u8]) -> Change<'a>
    requires inside { at + length header.now ≤ length loaded.now.bytes }
    requires kept { at + length header.now ≤ loaded.now.front }
    ensures place { result.place ≡ at }
    ensures bytes { result.bytes.now ≡ header_left at header.now loaded.now.bytes }
{
    if *loaded.edge(at, header.len()) == *header {
        return Change {
            place: at,
            bytes: &[],
        };
    }
    Change {
        place: at,
        bytes: header,
    }
}

impl<T: Copy> Edits for VolumeEdits<'_, T> {
    ghost all = { λ edits. edits.all };

    ghost left = { λ edits. edits.left };

    ghost failed = { λ edits. false };

    fn rewind(&mut self) {
        self.begin();
    }

    fn next_piece(&mut self, room: &mut [u8]) -> std::io::Result<Option<Head>> {
        Ok(self.next(room))
    }
}
