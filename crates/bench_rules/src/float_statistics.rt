/// What the samples of a trace say where they are floats. The least, the greatest and the sum are
/// ranks (`float_codes`), the sum that of a binary64 whatever the format. Where no sample is a
/// number the least is `float_codes::NO_NUMBER`, and neither greatest nor sum says anything.
#[derive(Debug, Clone, Copy, PartialEq, Eq)]
pub struct FloatStatistics {
    pub least: i128,
    pub greatest: i128,
    /// Of the exact sum of those that are numbers, rounded once.
    pub sum: i64,
    /// How many samples there are.
    pub number: u64,
    /// How many of them are no number.
    pub no_numbers: i128,
}
