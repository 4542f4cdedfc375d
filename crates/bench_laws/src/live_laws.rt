// What running values and reports show of a volume, each the contract of a call that does nothing.
ghost use Rattle.bench_laws.specs.ReportLaws.{TotalsAreOfAllSamples};
ghost use Rattle.bench_rules.specs.Live.{ShowsFolds, ShowsTheCells, ShowsTheInlines, ShowsTheCrosslines, ShowsTheHistogram, ShowsRanges, ShowsTotals, ShowsFaults};

/// What is read from running values that have counted the records of a volume's traces is what the
/// reports say of the volume: each fold, the cells, inlines, crosslines and the histogram of folds,
/// each range, the totals and the faults.
pub fn running_values_show_the_reports()
    ensures folds { ShowsFolds }
    ensures cells { ShowsTheCells }
    ensures inlines { ShowsTheInlines }
    ensures crosslines { ShowsTheCrosslines }
    ensures histogram { ShowsTheHistogram }
    ensures ranges { ShowsRanges }
    ensures totals { ShowsTotals }
    ensures faults { ShowsFaults }
{}

/// The totals of a volume are the statistics of the samples of all its traces, one trace after
/// another, and none where its samples have no values.
pub fn totals_are_of_all_samples()
    ensures { TotalsAreOfAllSamples }
{}
