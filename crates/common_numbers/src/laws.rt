// A law of the commonest number, the contract of a call that does nothing.
ghost use Rattle.common_numbers.specs.Commonest.{CommonestIsFound};

/// The commonest number stands in the list, none stands there more often, and none that stands
/// there as often is less; nothing is found in an empty list alone.
pub fn commonest_is_found()
    ensures { CommonestIsFound }
{}
