// Laws of the grid, each the contract of a call that does nothing.
ghost use Rattle.grid_live.specs.Laws.{FoldOfTally, CellsAreShown, InlinesAreShown, CrosslinesAreShown, HistogramIsShown, AtMostOneListOfCells, AtMostOneListOfInlines, AtMostOneListOfCrosslines, AtMostOneHistogram};

/// The number at a cell of the tally of a list of traces is the cell's fold.
pub fn fold_of_tally()
    ensures { FoldOfTally }
{}

/// The cells of a list of traces are those that its tally shows.
pub fn cells_are_shown()
    ensures { CellsAreShown }
{}

/// The inlines of a list of traces are those that its tally shows.
pub fn inlines_are_shown()
    ensures { InlinesAreShown }
{}

/// The crosslines of a list of traces are those that its tally shows.
pub fn crosslines_are_shown()
    ensures { CrosslinesAreShown }
{}

/// The histogram of a list of traces is the one that its tally shows.
pub fn histogram_is_shown()
    ensures { HistogramIsShown }
{}

/// Tallies that say the same show the same cells.
pub fn at_most_one_list_of_cells()
    ensures { AtMostOneListOfCells }
{}

/// Tallies that say the same show the same inlines.
pub fn at_most_one_list_of_inlines()
    ensures { AtMostOneListOfInlines }
{}

/// Tallies that say the same show the same crosslines.
pub fn at_most_one_list_of_crosslines()
    ensures { AtMostOneListOfCrosslines }
{}

/// Tallies that say the same show the same histogram.
pub fn at_most_one_histogram()
    ensures { AtMostOneHistogram }
{}
