// Laws of numbers as bytes, each the contract of a call that does nothing.
ghost use Rattle.num_order.specs.Number.{ReadsBack};

/// What is written is read again, in both orders, at each size, with a sign and without one. Takes
/// no memory.
pub fn reads_back()
    ensures { ReadsBack }
{}
