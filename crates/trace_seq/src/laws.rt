// Laws of orders, each the contract of a call that does nothing.
ghost use Rattle.trace_seq.specs.Laws.{HeldIdStands, StandingIdIsHeld, StandsAtOnePosition, TakenOutTogether};

/// An id that is held stands at some position.
pub fn held_id_stands()
    ensures { HeldIdStands }
{}

/// An id that stands at some position is held.
pub fn standing_id_is_held()
    ensures { StandingIdIsHeld }
{}

/// Of distinct ids each stands at one position.
pub fn stands_at_one_position()
    ensures { StandsAtOnePosition }
{}

/// Ids that are taken out together are those that are taken out one after the other, the last of
/// them first.
pub fn taken_out_together()
    ensures { TakenOutTogether }
{}
