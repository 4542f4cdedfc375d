// What holds of two fields of chosen traces that are swapped, and swapped again, as contracts of
// calls that do nothing.
ghost use Rattle.chosen_laws.specs.SwapLaws.{SwapIsItsSets, SwapBackIsNotRefused, SwapAgainIsNotRefused, SwapTwiceIsNothing};

/// A swap of two fields of chosen traces is what two sets of each of them make, one after another,
/// each of them done: the first field to the second's number, and then the second to the first's,
/// both as they were before the swap. So it is also where the places share bytes.
pub fn swap_is_its_sets()
    ensures { SwapIsItsSets }
{}

/// Two fields whose places share no byte, swapped in chosen traces, may be swapped back in the same
/// traces: the second is named first then.
pub fn swap_back_is_not_refused()
    ensures { SwapBackIsNotRefused }
{}

/// They may be swapped again in the same turn too, where neither says how long a trace is. Where
/// both count samples, a trace between the two sets may have neither number.
pub fn swap_again_is_not_refused()
    ensures { SwapAgainIsNotRefused }
{}

/// Swapped twice in the same traces, in either turn, the bytes are those of before.
pub fn swap_twice_is_nothing()
    ensures { SwapTwiceIsNothing }
{}
