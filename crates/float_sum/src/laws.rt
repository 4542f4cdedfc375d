// Laws of the sum, each the contract of a call that does nothing.
ghost use Rattle.float_sum.specs.Laws.{UnitsAreExact, SumHasNoOrder, TotalHasNoOrder};

/// A finite float is a whole number of units. Takes no memory.
#[tactic(auto, using(crate::proofs::RoundLemmas::units_are_exact))]
pub fn units_are_exact()
    ensures { UnitsAreExact }
{}

/// The same floats in another order have the same sum. Takes no memory.
#[tactic(auto, using(crate::proofs::RoundLemmas::sum_has_no_order, crate::proofs::RoundLemmas::total_has_no_order))]
pub fn order_is_free()
    ensures finite { SumHasNoOrder }
    ensures total { TotalHasNoOrder }
{}
