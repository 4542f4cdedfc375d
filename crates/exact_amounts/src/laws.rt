// Laws of places, each the contract of a call that does nothing.
ghost use Rattle.exact_amounts.specs.Places.{PlacesAreExact};

/// The place of a number compares with each value as the number does. Takes no memory.
#[tactic(auto, using(crate::proofs::PlaceLemmas::places_are_exact))]
pub fn places_are_exact()
    ensures { PlacesAreExact }
{}
