// A walk over the runs of the traces, at their places in the file.
ghost use Rattle.std.specs.Prelude.{◌≡◌, ◌+◌, ◌<◌, ◌^◌, [], ◌∷◌, length, MatchOption, IfSome};
ghost use Rattle.std.specs.List.{flat_map};
ghost use Rattle.edit_pieces.specs.Changes.{layers_of, runs_in};
ghost use Rattle.edit_pieces.specs.Spans.{span_of};

use crate::change::Change;
use std::marker::Model;
use trace_seq::Ids;
use trace_store::TraceStore;
use trace_view::Run;

// The runs of the traces that are left. Seen as the list of them at their places in the file. A
// trace without runs costs no more than finding its slot.
#[derive(Drop)]
pub(crate) struct RunsWalk<'a, T: Copy> {
    store: &'a TraceStore<T>,
    ids: Ids<'a>,

    // The runs of the trace that was found last, and where its extent starts.
    start: u64,
    runs: &'a [Run],
}

impl<'a, T: Copy> Model for RunsWalk<'a, T> {
    ghost use Rattle.std.specs.Prelude.{List};
    ghost use Rattle.journal_codes.specs.Codes.{Span};
    ghost use Rattle.edit_pieces.specs.RunsLeft.{runs_left, AreRunsLeft};

    ghost Value = { List Span };

    ghost view = { runs_left };

    ghost invariant = { AreRunsLeft };
}

impl<'a, T: Copy> RunsWalk<'a, T> {
    // All runs of a store.
    pub(crate) fn new(store: &'a TraceStore<T>) -> RunsWalk<'a, T>
        ensures { result ≡ flat_map runs_in (layers_of store.now) }
    {
        // Brings the bound of the places into the proof, and does nothing at run time.
        let _length = store.loaded.length();
        RunsWalk {
            store,
            ids: store.order.ids(),
            start: 0,
            runs: &[],
        }
    }

    // The next run at its place, if there is one.
    pub(crate) fn next(&mut self) -> Option<Change<'a>>
        ensures next { MatchOption result (self.old ≡ [])
            (λ change. self.old ≡ span_of change ∷ self.new) }
        ensures some { IfSome result (λ change. 0 < length change.bytes.now) }
        ensures bounded { IfSome result
            (λ change. change.place + length change.bytes.now < 2 ^ 64) }
    {
        'traces: while self.runs.is_empty() {
            let id = self.ids.next()?;
            if let Some(slot) = self.store.slots.get(id)
                && let Some(extent) = slot.layers.extent()
            {
                self.start = extent.start;
                self.runs = slot.layers.runs();
            }
        }
        let (run, behind) = self.runs.split_first()?;
        self.runs = behind;
        Some(Change {
            place: self.start + run.at,
            bytes: run.bytes.as_slice(),
        })
    }
}
