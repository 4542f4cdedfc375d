// What holds where there is no condition, as contracts of calls that do nothing.
ghost use Rattle.chosen_laws.specs.RangeLaws.{RangeIsChosen, RenumberIsOfItsRange, ComputeIsOfItsRange, QueriesAreOfTheirRange};

/// Without a condition the chosen traces are those of the range, and no edit tells of how many it
/// was.
pub fn chosen_of_a_range()
    ensures { RangeIsChosen }
{}

/// A field counted up in a range of traces meets the same first refusal, and makes the same bytes,
/// as in the traces that are chosen of that range without a condition.
pub fn renumber_is_of_its_range()
    ensures { RenumberIsOfItsRange }
{}

/// The same of a field that is computed.
pub fn compute_is_of_its_range()
    ensures { ComputeIsOfItsRange }
{}

/// A table, a search and the extremes of a range of traces are answered as those of the traces that
/// are chosen of that range without a condition.
pub fn queries_are_of_their_range()
    ensures { QueriesAreOfTheirRange }
{}
