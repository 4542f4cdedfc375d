// Laws of words, each the contract of a call that does nothing.
ghost use Rattle.shown_floats.specs.Shows.{EachRankIsShown};

/// Each rank has a word that shows it: so the samples of a trace have a line, whatever they are.
/// Takes no memory.
#[tactic(auto, using(crate::proofs::WordLemmas::some_word))]
pub fn each_rank_is_shown()
    ensures { EachRankIsShown }
{}
