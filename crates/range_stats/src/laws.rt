// Laws of ranges and totals, each the contract of a call that does nothing.
ghost use Rattle.range_stats.specs.Laws.{RangeIsRange, AtMostOneRange, AtMostOneRangeIn, AtMostOneLeastIn, AtMostOneGreatestIn, RangeOfTally, TotalsAreOfSamples, TotalsOfTally};

/// The range that is computed of a list of traces is their range.
pub fn range_is_range()
    ensures { RangeIsRange }
{}

/// Two ranges of a list of traces are the same.
pub fn at_most_one_range()
    ensures { AtMostOneRange }
{}

/// Tallies that say the same have the same range.
pub fn at_most_one_range_in()
    ensures { AtMostOneRangeIn }
{}

/// Tallies that say the same have the same least sample.
pub fn at_most_one_least_in()
    ensures { AtMostOneLeastIn }
{}

/// Tallies that say the same have the same greatest sample.
pub fn at_most_one_greatest_in()
    ensures { AtMostOneGreatestIn }
{}

/// The range of a list of traces is the one in its tally.
pub fn range_of_tally()
    ensures { RangeOfTally }
{}

/// The totals of traces are the statistics of all their samples.
pub fn totals_are_of_samples()
    ensures { TotalsAreOfSamples }
{}

/// The totals of a list of traces are those in its tally.
pub fn totals_of_tally()
    ensures { TotalsOfTally }
{}
