// Writes a volume to a device: its parts in order, neighbouring ranges of the loaded file together,
// and joins nothing. What was loaded is written by pieces, each as long as can be lent at once.
ghost use Rattle.std.specs.Prelude.{◌≡◌, ◌+◌, ◌-◌, ◌≤◌, ◌<◌, ◌^◌, [], length, slice_range, slice_index_or, None, IfErr, OnOk};
ghost use Rattle.std.specs.List.{concat};
ghost use Rattle.base_file.specs.HeldBytes.{IsSure};
ghost use Rattle.frame_cut.specs.Volume.{bytes_of};
ghost use Rattle.trace_view.specs.Shown.{bytes_of as bytes_of_view};
ghost use Rattle.edit_overlay.specs.Held.{volume_with, CanLend, HasEnds};
ghost use Rattle.edit_overlay.specs.Saving.{progress, CountsSaveFailure, GoesOn, IsUnread, Saves};
ghost use Rattle.trace_store.specs.Reread.{IsReread};
ghost use Rattle.trace_store.specs.Stores.{traces_of};

use crate::save_fault::SaveFault;
use crate::waiting::Waiting;
use device_io::Sink;
use frame_cut::{BINARY_HEADER_BYTES, FILE_HEADER_BYTES};
use std::io::Write;
use text_block::TEXT_BLOCK_BYTES;
use trace_store::TraceStore;
use trace_view::TraceView;

// Writes the headers, then the blocks and the traces of the store, so many bytes of no trace and
// the data trailer records.
pub fn write_volume<W: Write, T: Copy>(
    writer: &mut Sink<W>,
    text: &[u8; TEXT_BLOCK_BYTES],
    bin: &[u8; BINARY_HEADER_BYTES],
    tail: u64,
    store: &mut TraceStore<T>,
) -> Result<(), SaveFault>
    requires ends { HasEnds store.old tail }
    requires lends { CanLend store.old.loaded }
    requires small { length (bytes_of (volume_with text.now bin.now tail store.old)) < 2 ^ 64 }
    ensures same { IsReread store.old store.new }
    ensures saved { IsSure store.new.loaded.standing → Saves (W.contents writer.old.inner)
        (W.contents writer.new.inner) (bytes_of (volume_with text.now bin.now tail store.old))
        result }
    ensures read { IfErr result (λ fault. IsUnread store.old.loaded store.new.loaded fault.read) }
    ensures failures { CountsSaveFailure result writer.old.failures writer.new.failures }
{
    let mut written = 0;
    write_part(writer, &mut written, text)?;
    write_part(writer, &mut written, bin)?;
    let mut waiting = Waiting {
        from: FILE_HEADER_BYTES,
        to: store.head.traces_at as usize,
        written,
    };
    let end = store.loaded.length() as usize;
    let behind = end - TEXT_BLOCK_BYTES * store.head.trailer as usize - tail as usize;
    write_traces(writer, store, &mut waiting)?;
    write_range(writer, store, &mut waiting, behind, end)?;
    flush(writer, store, &mut waiting)
}

// Writes the traces behind what waits.
fn write_traces<W: Write, T: Copy>(
    writer: &mut Sink<W>,
    store: &mut TraceStore<T>,
    waiting: &mut Waiting,
) -> Result<(), SaveFault>
    requires lends { CanLend store.old.loaded }
    requires bounded { length store.old.loaded.bytes < 2 ^ 64 }
    requires inside { waiting.old.to ≤ length store.old.loaded.bytes }
    requires small { waiting.old.written + (waiting.old.to - waiting.old.from) + length
        (concat (traces_of store.old)) < 2 ^ 64 }
    ensures same { IsReread store.old store.new }
    ensures inside { waiting.new.to ≤ length store.old.loaded.bytes }
    ensures count { OnOk result (waiting.new.written + (waiting.new.to - waiting.new.from)
        ≡ waiting.old.written + (waiting.old.to - waiting.old.from) + length
        (concat (traces_of store.old))) }
    ensures saved { IsSure store.new.loaded.standing → GoesOn (W.contents writer.old.inner)
        (W.contents writer.new.inner) (progress store.old.loaded.bytes waiting.old)
        (progress store.old.loaded.bytes waiting.new) (concat (traces_of store.old)) result }
    ensures read { IfErr result (λ fault. IsUnread store.old.loaded store.new.loaded fault.read) }
    ensures failures { CountsSaveFailure result writer.old.failures writer.new.failures }
{
    for at in 0..store.count() {
        write_trace(writer, store, waiting, at + 1)?;
    }
    Ok(())
}

// Writes trace p behind what waits.
fn write_trace<W: Write, T: Copy>(
    writer: &mut Sink<W>,
    store: &mut TraceStore<T>,
    waiting: &mut Waiting,
    p: u32,
) -> Result<(), SaveFault>
    requires first { 1 ≤ p }
    requires last { p ≤ length (traces_of store.old) }
    requires lends { CanLend store.old.loaded }
    requires bounded { length store.old.loaded.bytes < 2 ^ 64 }
    requires inside { waiting.old.to ≤ length store.old.loaded.bytes }
    requires small { waiting.old.written + (waiting.old.to - waiting.old.from) + length
        (slice_index_or (traces_of store.old) (p - 1) []) < 2 ^ 64 }
    ensures same { IsReread store.old store.new }
    ensures inside { waiting.new.to ≤ length store.old.loaded.bytes }
    ensures count { OnOk result (waiting.new.written + (waiting.new.to - waiting.new.from)
        ≡ waiting.old.written + (waiting.old.to - waiting.old.from) + length
        (slice_index_or (traces_of store.old) (p - 1) [])) }
    ensures saved { IsSure store.new.loaded.standing → GoesOn (W.contents writer.old.inner)
        (W.contents writer.new.inner) (progress store.old.loaded.bytes waiting.old)
        (progress store.old.loaded.bytes waiting.new)
        (slice_index_or (traces_of store.old) (p - 1) []) result }
    ensures read { IfErr result (λ fault. IsUnread store.old.loaded store.new.loaded fault.read) }
    ensures failures { CountsSaveFailure result writer.old.failures writer.new.failures }
{
    if let Some(extent) = store.whole_range(p) {
        let from = extent.start as usize;
        return write_range(writer, store, waiting, from, from + extent.length as usize);
    }
    flush(writer, store, waiting)?;
    match store.fetch(p) {
        Ok(()) => write_view(writer, &mut waiting.written, &store.shown(p)),
        Err(fault) => Err(SaveFault {
            written: waiting.written,
            read: Some(fault),
        }),
    }
}

// Puts a range of the loaded bytes behind the one that waits, which is written before where the two
// are no neighbours.
fn write_range<W: Write, T: Copy>(
    writer: &mut Sink<W>,
    store: &mut TraceStore<T>,
    waiting: &mut Waiting,
    from: usize,
    to: usize,
) -> Result<(), SaveFault>
    requires lends { CanLend store.old.loaded }
    requires inside { waiting.old.to ≤ length store.old.loaded.bytes }
    requires range { from ≤ to }
    requires range_inside { to ≤ length store.old.loaded.bytes }
    requires small { waiting.old.written + (waiting.old.to - waiting.old.from) < 2 ^ 64 }
    ensures same { IsReread store.old store.new }
    ensures inside { waiting.new.to ≤ length store.old.loaded.bytes }
    ensures count { OnOk result (waiting.new.written + (waiting.new.to - waiting.new.from)
        ≡ waiting.old.written + (waiting.old.to - waiting.old.from) + (to - from)) }
    ensures saved { IsSure store.new.loaded.standing → GoesOn (W.contents writer.old.inner)
        (W.contents writer.new.inner) (progress store.old.loaded.bytes waiting.old)
        (progress store.old.loaded.bytes waiting.new)
        (slice_range store.old.loaded.bytes from to) result }
    ensures read { IfErr result (λ fault. IsUnread store.old.loaded store.new.loaded fault.read) }
    ensures failures { CountsSaveFailure result writer.old.failures writer.new.failures }
{
    if from == waiting.to {
        waiting.to = to;
        return Ok(());
    }
    flush(writer, store, waiting)?;
    waiting.from = from;
    waiting.to = to;
    Ok(())
}

// Writes what waits.
fn flush<W: Write, T: Copy>(
    writer: &mut Sink<W>,
    store: &mut TraceStore<T>,
    waiting: &mut Waiting,
) -> Result<(), SaveFault>
    requires lends { CanLend store.old.loaded }
    requires inside { waiting.old.to ≤ length store.old.loaded.bytes }
    requires small { waiting.old.written + (waiting.old.to - waiting.old.from) < 2 ^ 64 }
    ensures same { IsReread store.old store.new }
    ensures to { waiting.new.to ≡ waiting.old.to }
    ensures empty { OnOk result (waiting.new.from ≡ waiting.new.to) }
    ensures count { OnOk result
        (waiting.new.written ≡ waiting.old.written + (waiting.old.to - waiting.old.from)) }
    ensures saved { IsSure store.new.loaded.standing → GoesOn (W.contents writer.old.inner)
        (W.contents writer.new.inner) (progress store.old.loaded.bytes waiting.old)
        (progress store.old.loaded.bytes waiting.new) [] result }
    ensures read { IfErr result (λ fault. IsUnread store.old.loaded store.new.loaded fault.read) }
    ensures failures { CountsSaveFailure result writer.old.failures writer.new.failures }
{
    'pieces: while waiting.from < waiting.to {
        write_piece(writer, store, waiting)?;
    }
    Ok(())
}

// Writes the first of the bytes that wait, as many as can be lent at once.
fn write_piece<W: Write, T: Copy>(
    writer: &mut Sink<W>,
    store: &mut TraceStore<T>,
    waiting: &mut Waiting,
) -> Result<(), SaveFault>
    requires lends { CanLend store.old.loaded }
    requires some { waiting.old.from < waiting.old.to }
    requires inside { waiting.old.to ≤ length store.old.loaded.bytes }
    requires small { waiting.old.written + (waiting.old.to - waiting.old.from) < 2 ^ 64 }
    ensures same { IsReread store.old store.new }
    ensures to { waiting.new.to ≡ waiting.old.to }
    ensures on { OnOk result (waiting.old.from < waiting.new.from) }
    ensures count { OnOk result (waiting.new.written + (waiting.new.to - waiting.new.from)
        ≡ waiting.old.written + (waiting.old.to - waiting.old.from)) }
    ensures saved { IsSure store.new.loaded.standing → GoesOn (W.contents writer.old.inner)
        (W.contents writer.new.inner) (progress store.old.loaded.bytes waiting.old)
        (progress store.old.loaded.bytes waiting.new) [] result }
    ensures read { IfErr result (λ fault. IsUnread store.old.loaded store.new.loaded fault.read) }
    ensures failures { CountsSaveFailure result writer.old.failures writer.new.failures }
{
    let size = store.loaded.most().min(waiting.to - waiting.from);
    match store.fetch_loaded(waiting.from as u64, size) {
        Ok(()) => {
            let piece = store.loaded.lent(waiting.from as u64, size);
            write_part(writer, &mut waiting.written, piece)?;
            waiting.from += size;
            Ok(())
        }
        Err(fault) => Err(SaveFault {
            written: waiting.written,
            read: Some(fault),
        }),
    }
}

// Writes the pieces of a trace.
fn write_view<W: Write>(
    writer: &mut Sink<W>,
    written: &mut u64,
    view: &TraceView<'_>,
) -> Result<(), SaveFault>
    requires small { written.old + length (bytes_of_view view.now) < 2 ^ 64 }
    ensures count { OnOk result (written.new ≡ written.old + length (bytes_of_view view.now)) }
    ensures saved { GoesOn (W.contents writer.old.inner) (W.contents writer.new.inner)
        (record { written = written.old; waits = [] })
        (record { written = written.new; waits = [] }) (bytes_of_view view.now) result }
    ensures read { IfErr result (λ fault. fault.read ≡ None) }
    ensures failures { CountsSaveFailure result writer.old.failures writer.new.failures }
{
    for piece in view.pieces() {
        write_part(writer, written, piece)?;
    }
    Ok(())
}

// Writes bytes behind those that the writer took, and counts them.
fn write_part<W: Write>(
    writer: &mut Sink<W>,
    written: &mut u64,
    bytes: &[u8],
) -> Result<(), SaveFault>
    requires small { written.old + length bytes.now < 2 ^ 64 }
    ensures count { OnOk result (written.new ≡ written.old + length bytes.now) }
    ensures saved { GoesOn (W.contents writer.old.inner) (W.contents writer.new.inner)
        (record { written = written.old; waits = [] })
        (record { written = written.new; waits = [] }) bytes.now result }
    ensures read { IfErr result (λ fault. fault.read ≡ None) }
    ensures failures { CountsSaveFailure result writer.old.failures writer.new.failures }
{
    match writer.write_all(bytes) {
        Ok(()) => {
            *written += bytes.len() as u64;
            Ok(())
        }
        Err(fault) => Err(SaveFault {
            written: *written + fault.written,
            read: None,
        }),
    }
}
