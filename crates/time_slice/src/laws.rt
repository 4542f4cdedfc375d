// Laws of slices, each the contract of a call that does nothing.
ghost use Rattle.time_slice.specs.CacheLaws.{NumbersAfterAsked, NumbersAfterForgotten, AskedStaysRight, ForgottenStaysRight, RowsComeBack, RightOfRecords};
ghost use Rattle.time_slice.specs.Laws.{SliceIsSlice, AtMostOneSlice, RowsAreOfTraces};

/// The rows of a list of traces, in rising order, are a slice.
pub fn slice_is_slice()
    ensures { SliceIsSlice }
{}

/// Two slices of a list of traces are the same.
pub fn at_most_one_slice()
    ensures { AtMostOneSlice }
{}

/// Where each record holds the facts of the trace at its place, the rows that records give are the
/// slice of the traces.
pub fn rows_are_of_traces()
    ensures { RowsAreOfTraces }
{}

/// After a slice was asked for, its number comes first among the kept ones.
pub fn numbers_after_asked()
    ensures { NumbersAfterAsked }
{}

/// After some samples changed, their numbers are no longer among the kept ones.
pub fn numbers_after_forgotten()
    ensures { NumbersAfterForgotten }
{}

/// Kept slices that are right stay so when one more is asked for and answered with its rows.
pub fn asked_stays_right()
    ensures { AskedStaysRight }
{}

/// Kept slices that are right stay so when some are forgotten.
pub fn forgotten_stays_right()
    ensures { ForgottenStaysRight }
{}

/// The rows of a slice are got back from what is kept of them and the facts of the traces.
pub fn rows_come_back()
    ensures { RowsComeBack }
{}

/// Where each record holds the facts of the trace at its place, the slices that the records give
/// are those of the traces.
pub fn right_of_records()
    ensures { RightOfRecords }
{}
