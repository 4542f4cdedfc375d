// Whether the edits of a volume left its traces where they were.
ghost use Rattle.std.specs.Prelude.{◌≡◌};
ghost use Rattle.edit_overlay.specs.Held.{HasEnds};
ghost use Rattle.trace_store.specs.Layers.{extent_of};
ghost use Rattle.edit_pieces.specs.Changes.{layers_under};
ghost use Rattle.edit_pieces.specs.InPlace.{unfit_of};

use crate::unfit::Unfit;
use frame_cut::Extent;
use text_block::TEXT_BLOCK_BYTES;
use trace_store::TraceStore;

// Why the traces, and so many bytes of no trace behind them, are not where they were, if they are
// not. Takes each trace from its slot.
pub(crate) fn unfit_in<T: Copy>(tail: u64, store: &TraceStore<T>) -> Option<Unfit>
    requires { HasEnds store.now tail }
    ensures { result ≡ unfit_of tail store.now }
{
    let records = TEXT_BLOCK_BYTES as u64 * store.head.trailer as u64;
    let end = store.loaded.length() - records - tail;
    let mut at = store.head.traces_at;
    let mut p: u32 = 0;
    let mut ids = store.order.ids();
    'traces: while let Some(id) = ids.next() {
        p += 1;
        let Some(extent) = extent_under(store, id) else {
            return Some(Unfit::NewTrace(p));
        };
        if extent.start != at {
            return Some(Unfit::OtherPlace(p));
        }
        at += extent.length;
    }
    if at != end {
        return Some(Unfit::Fewer);
    }
    None
}

// The extent of the loaded file that the trace under an id lies over, if it is one.
fn extent_under<T: Copy>(store: &TraceStore<T>, id: usize) -> Option<Extent>
    ensures { result ≡ extent_of (layers_under store.now.slots id).base }
{
    match store.slots.get(id) {
        Some(slot) => slot.layers.extent(),
        None => Some(Extent {
            start: 0,
            length: 0,
        }),
    }
}
