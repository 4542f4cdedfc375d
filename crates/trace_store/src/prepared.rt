// An edit that is prepared.
ghost use Rattle.std.specs.Prelude.{◌≡◌, ◌+◌, ◌-◌, ◌<◌, ◌≤◌, option_copied};
ghost use Rattle.trace_store.specs.Then.{place_in_move, place_then, runs_over, runs_then};

use crate::layers::NewRuns;
use trace_view::Run;

/// Runs over one trace or over traces that follow one another, or a trace that is to stand
/// elsewhere.
#[derive(Drop)]
pub enum Prepared {
    Put(TracePut),
    Runs(TraceRuns),
    Move(TraceMove),
}

/// Runs for the trace at `place`, counted from 0.
#[derive(Drop)]
pub struct TracePut {
    pub place: u32,
    pub runs: NewRuns,
}

/// A list of runs for each of these traces, of which the first is at `place`, counted from 0.
#[derive(Drop)]
pub struct TraceRuns {
    pub place: u32,
    pub lists: Vec<NewRuns>,
}

/// Trace `from` taken out, and put in again so that it is trace `to`; both count from 1.
#[derive(Drop)]
pub struct TraceMove {
    pub from: u32,
    pub to: u32,
}

impl Prepared {
    // Where the trace is now that would be trace p.
    #[inline]
    pub(crate) fn place(&self, p: u32) -> u32
        ensures { result ≡ place_then self.now p }
    {
        match self {
            Prepared::Move(places) => places.origin(p),
            _ => p,
        }
    }

    // The runs that would lie over trace p, if the edit lays any.
    #[inline]
    pub(crate) fn runs(&self, p: u32) -> Option<&[Run]>
        requires { 1 ≤ p }
        ensures { option_copied result ≡ runs_then self.now p }
    {
        match self {
            Prepared::Put(put) => {
                if p - 1 == put.place {
                    Some(put.runs.as_slice())
                } else {
                    None
                }
            }
            Prepared::Runs(runs) => runs.over(p - 1),
            Prepared::Move(_) => None,
        }
    }
}

impl TraceRuns {
    // The runs for the trace at a place, counted from 0, if it is one of these traces.
    fn over(&self, place: u32) -> Option<&[Run]>
        ensures { option_copied result ≡ runs_over self.now place }
    {
        if place < self.place {
            return None;
        }
        let list = self.lists.get((place - self.place) as usize)?;
        Some(list.as_slice())
    }
}

impl TraceMove {
    /// Where the trace is now that would be trace p.
    pub fn origin(&self, p: u32) -> u32
        ensures place { result ≡ place_in_move self.now p }
        ensures moved { p ≡ self.now.to → result ≡ self.now.from }
        ensures forth { self.now.from ≤ p → p < self.now.to → result ≡ p + 1 }
        ensures back { self.now.to < p → p ≤ self.now.from → result ≡ p - 1 }
        ensures in_front { p < self.now.from → p < self.now.to → result ≡ p }
        ensures behind { self.now.from < p → self.now.to < p → result ≡ p }
    {
        if p == self.to {
            return self.from;
        }
        if self.from <= p && p < self.to {
            return p + 1;
        }
        if self.to < p && p <= self.from {
            return p - 1;
        }
        p
    }
}
