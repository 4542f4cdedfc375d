// A law of ratios, the contract of a call that does nothing.
ghost use Rattle.key_counts.specs.Laws.{EqualRatiosAreOne};

/// Ratios of one value are one ratio.
pub fn equal_ratios_are_one()
    ensures { EqualRatiosAreOne }
{}
