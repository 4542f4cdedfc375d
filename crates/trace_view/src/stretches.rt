// The stretches that a trace's bytes are made of: the base between the runs, and the runs.
ghost use Rattle.std.specs.Prelude.{◌≡◌, ◌<◌, ◌++◌, length};
ghost use Rattle.trace_view.specs.Runs.{Fit, bytes_with_runs};

use crate::run::Run;
use std::marker::Model;

// The stretches behind some place. Seen as the bytes from there on.
#[derive(Drop)]
pub(crate) struct Stretches<'a> {
    from: usize,
    base: &'a [u8],
    runs: &'a [Run],
}

impl<'a> Model for Stretches<'a> {
    ghost use Rattle.std.specs.Prelude.{ℕ, List, length};
    ghost use Rattle.trace_view.specs.Runs.{FitFrom, bytes_with_runs_from};

    ghost Value = { List ℕ };

    ghost view = { λ s. bytes_with_runs_from s.from s.base.now s.runs.now };

    ghost invariant = { λ s. FitFrom s.from s.runs.now (length s.base.now) };
}

impl<'a> Stretches<'a> {
    // All of them.
    pub(crate) fn new(base: &'a [u8], runs: &'a [Run]) -> Stretches<'a>
        requires { Fit runs.now (length base.now) }
        ensures { result ≡ bytes_with_runs base.now runs.now }
    {
        Stretches {
            from: 0,
            base,
            runs,
        }
    }

    // The next one.
    pub(crate) fn advance(&mut self) -> &'a [u8]
        requires { 0 < length self.old }
        ensures bytes { self.old ≡ result.now ++ self.new }
        ensures some { 0 < length result.now }
    {
        let from = self.from;
        let base = self.base;
        let Some((run, rest)) = self.runs.split_first() else {
            self.from = base.len();
            return &base[from..];
        };
        let at = run.at as usize;
        if from < at {
            self.from = at;
            return &base[from..at];
        }
        self.from = at + run.bytes.len();
        self.runs = rest;
        run.bytes.as_slice()
    }
}
