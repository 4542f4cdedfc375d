// Laws of faults, each the contract of a call that does nothing.
ghost use Rattle.fault_live.specs.Laws.{OnceIsNotRepeated};

/// A trace whose inline, crossline and offset are counted once stands at no earlier trace.
pub fn once_is_not_repeated()
    ensures { OnceIsNotRepeated }
{}
