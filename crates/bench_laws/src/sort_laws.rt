// What holds of traces that are put in order, as contracts of calls that do nothing.
ghost use Rattle.bench_laws.specs.SortLaws.{RowsStandInOrder, SortPutsRowsInOrder, SortKeepsTraces, SortedTableIsInOrder};

/// Rows in order, all of one length, are the same rows; none of them is in front of the one before
/// it; and those that no number tells from a row stand as they stood.
pub fn rows_stand_in_order()
    ensures { RowsStandInOrder }
{}

/// A sort that is done changes nothing but the order of the traces of its range: the trace of each
/// row of their table stands where the row stands in order.
pub fn sort_puts_rows_in_order()
    ensures { SortPutsRowsInOrder }
{}

/// A sort that is done leaves the same traces, in another order, and those before and behind its
/// range where they stood.
pub fn sort_keeps_traces()
    ensures { SortKeepsTraces }
{}

/// A table of its fields that is asked behind a sort has the numbers of the one before it, in
/// order.
pub fn sorted_table_is_in_order()
    ensures { SortedTableIsInOrder }
{}
