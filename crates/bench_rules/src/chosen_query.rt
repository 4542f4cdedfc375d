use crate::field::Field;
use crate::items::Items;
use crate::sample_range::SampleRange;

/// What is asked of chosen traces.
#[derive(Drop)]
pub enum ChosenQuery {
    /// How many they are.
    Count,
    /// These header fields of each of them. Refused: E02 where a field has no place, E03 where one
    /// of them lacks a place.
    Table(Items<Field>),
    /// `Find(field, low, high)`: those whose field has a number from low to high; low above high
    /// finds none. Refused as `Table` is.
    Find(Field, i128, i128),
    /// Of each named header field whose numbers in them are not all 0, the least, the greatest, the
    /// first and the last.
    Extremes,
    /// The statistics of the samples of each of them. Refused: E12.
    Stats,
    /// Those of the samples of each of them that the range names. Refused: E12.
    Samples(SampleRange),
}
