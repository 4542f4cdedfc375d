// Laws of the float formats, each the contract of a call that does nothing.
ghost use Rattle.float_codes.specs.declared.float_format.FloatFormat.TheVariants.{Ieee32, Ieee64};
ghost use Rattle.float_codes.specs.Codes.{SamplesFit};
ghost use Rattle.float_codes.specs.Ranks.{RanksKeepOrder};
ghost use Rattle.float_codes.specs.Laws.{IbmIsExact, IeeeReadsBack, IbmReadsBack};

/// What an IBM pattern is worth, as a number. Takes no memory.
#[tactic(auto, using(crate::proofs::LawLemmas::ibm_is_exact))]
pub fn ibm_is_exact()
    ensures { IbmIsExact }
{}

/// A sample of an IEEE format that is read and written again is the same, but for what is no
/// number. Takes no memory.
#[tactic(auto, using(crate::proofs::LawLemmas::ieee32_reads_back, crate::proofs::LawLemmas::ieee64_reads_back))]
pub fn ieee_reads_back()
    ensures narrow { IeeeReadsBack Ieee32 }
    ensures wide { IeeeReadsBack Ieee64 }
{}

/// An IBM sample that is read and written again has the same value, and is normal. Takes no memory.
#[tactic(auto, using(crate::proofs::LawLemmas::ibm_reads_back))]
pub fn ibm_reads_back()
    ensures { IbmReadsBack }
{}

/// Numbers are in the order of their ranks, so that what is least and greatest of ranks is so of
/// floats. Takes no memory.
#[tactic(auto, using(crate::proofs::RankLemmas::ranks_keep_order))]
pub fn ranks_keep_order()
    ensures { RanksKeepOrder }
{}

/// A format has each value that its samples have. Takes no memory.
#[tactic(auto, using(crate::proofs::CodeLemmas::samples_fit))]
pub fn samples_fit()
    ensures { SamplesFit }
{}
