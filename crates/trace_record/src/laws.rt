// Laws, each the contract of a call that does nothing.
ghost use Rattle.trace_record.specs.Laws.{StatisticsOfJoined, TallyInAnyOrder, TallyOfOneMore, TallyOfOneLess, TallyHoldsEach, TallyOfAnExchange, MinusBesideUndoesPlus, PlusInAnyOrder, MinusUndoesPlus, PlusUndoesMinus, GeometryOfEachTrace};

/// The statistics of two lists one after the other are those of both together.
pub fn statistics_of_joined()
    ensures { StatisticsOfJoined }
{}

/// The tally does not depend on the order of the traces.
pub fn tally_in_any_order()
    ensures { TallyInAnyOrder }
{}

/// The tally of a list with one trace more, wherever it stands, is the tally with it counted.
pub fn tally_of_one_more()
    ensures { TallyOfOneMore }
{}

/// The tally of a list with one trace less is the tally with it no longer counted.
pub fn tally_of_one_less()
    ensures { TallyOfOneLess }
{}

/// The tally of a list holds each of its traces.
pub fn tally_holds_each()
    ensures { TallyHoldsEach }
{}

/// The tally of a list with one trace in the place of another is the tally with the new one counted
/// beside the old one, and then the old one no longer beside the new one.
pub fn tally_of_an_exchange()
    ensures { TallyOfAnExchange }
{}

/// No longer counting a trace beside another undoes counting it there.
pub fn minus_beside_undoes_plus()
    ensures { MinusBesideUndoesPlus }
{}

/// Two traces are counted in either order.
pub fn plus_in_any_order()
    ensures { PlusInAnyOrder }
{}

/// No longer counting a trace undoes counting it.
pub fn minus_undoes_plus()
    ensures { MinusUndoesPlus }
{}

/// Counting a trace undoes no longer counting it, where the tally has it.
pub fn plus_undoes_minus()
    ensures { PlusUndoesMinus }
{}

/// A map that keeps the geometry names gives each trace of its file a geometry.
pub fn geometry_of_each_trace()
    ensures { GeometryOfEachTrace }
{}
