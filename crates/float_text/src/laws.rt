// Laws of texts, each the contract of a call that does nothing.
ghost use Rattle.float_text.specs.Laws.{SamplesReadBack};

/// What shows a sample is read as the sample's value, also at -0: of IBM's a word that is read as a
/// binary64 which the format has. Takes no memory.
#[tactic(auto, using(crate::proofs::LawLemmas::samples_read_back))]
pub fn samples_read_back()
    ensures { SamplesReadBack }
{}
