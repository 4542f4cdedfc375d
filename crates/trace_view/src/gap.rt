// Places between runs.
ghost use Rattle.std.specs.Prelude.{◌≡◌, ◌+◌, ◌≤◌, length, count_by};
ghost use Rattle.trace_view.specs.Runs.{Fit};
ghost use Rattle.trace_view.specs.Puts.{IsGap, Show, is_in_front, is_behind};

use crate::run::Run;

// A place that no run lies over: so many runs end in front of it, and the others begin behind it;
// and the bytes that the runs have between it and the place from which it was looked for.
#[derive(Clone, Copy)]
pub(crate) struct Gap<'a> {
    pub(crate) index: usize,
    pub(crate) place: u64,
    pub(crate) bytes: &'a [u8],
}

// The last such place up to `at`, behind the runs that do not touch it.
pub(crate) fn gap_before(runs: &[Run], limit: u64, at: u64) -> Gap<'_>
    requires fit { Fit runs.now limit }
    requires inside { at ≤ limit }
    ensures gap { IsGap runs.now limit result.index result.place }
    ensures place { result.place ≤ at }
    ensures bytes { Show runs.now limit result.place at result.bytes.now }
    ensures count { result.index ≡ count_by (is_in_front at) runs.now }
{
    let mut index: usize = 0;
    for run in runs {
        if at <= run.at + run.bytes.len() as u64 {
            let place = if run.at < at { run.at } else { at };
            let bytes = &run.bytes.as_slice()[..(at - place) as usize];
            return Gap {
                index,
                place,
                bytes,
            };
        }
        index += 1;
    }
    Gap {
        index,
        place: at,
        bytes: &[],
    }
}

// The first such place from `end` on, in front of the runs that do not touch it.
pub(crate) fn gap_behind(runs: &[Run], limit: u64, end: u64) -> Gap<'_>
    requires fit { Fit runs.now limit }
    requires inside { end ≤ limit }
    ensures gap { IsGap runs.now limit result.index result.place }
    ensures place { end ≤ result.place }
    ensures bytes { Show runs.now limit end result.place result.bytes.now }
    ensures count { result.index + count_by (is_behind end) runs.now ≡ length runs.now }
{
    let mut index: usize = 0;
    let mut place = end;
    let mut bytes: &[u8] = &[];
    for run in runs {
        if end < run.at {
            return Gap {
                index,
                place,
                bytes,
            };
        }
        let run_end = run.at + run.bytes.len() as u64;
        if place < run_end {
            place = run_end;
            bytes = &run.bytes.as_slice()[(end - run.at) as usize..];
        }
        index += 1;
    }
    Gap {
        index,
        place,
        bytes,
    }
}
