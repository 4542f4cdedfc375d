// What holds of edits of chosen traces, as contracts of calls that do nothing.
ghost use Rattle.chosen_laws.specs.EditLaws.{NoneChosenChangesNothing, ChosenNumbersAreTheirSets, ChosenDeleteLeavesTheOthers, ChosenDeleteIsItsDeletes, FillIsItsPatches};

/// An edit of chosen traces changes nothing where none is chosen, and meets no refusal but its
/// own of no trace; under a condition it tells that it was of 0 traces.
pub fn none_chosen_changes_nothing()
    ensures { NoneChosenChangesNothing }
{}

/// A field of chosen traces that is counted up or computed is what the sets of each trace's number
/// make, one after another, each of them done.
pub fn chosen_numbers_are_their_sets()
    ensures { ChosenNumbersAreTheirSets }
{}

/// A delete of chosen traces leaves the others, in their order and untouched, and all else as it
/// was, in what reading the new bytes from scratch gives.
pub fn chosen_delete_leaves_the_others()
    ensures { ChosenDeleteLeavesTheOthers }
{}

/// A delete of chosen traces is what the deletes of each of them make, from the last to the first,
/// each of them done.
pub fn chosen_delete_is_its_deletes()
    ensures { ChosenDeleteIsItsDeletes }
{}

/// A fill of chosen traces is what patches of as many equal values of each of them make, one after
/// another, each of them done.
pub fn fill_is_its_patches()
    ensures { FillIsItsPatches }
{}
