use crate::field::Field;
use crate::items::Items;
use crate::operand::Operand;
use crate::operator::Operator;

/// An edit of chosen traces.
#[derive(Drop)]
pub enum ChosenEdit {
    /// Nothing is done to them. Refused: E02 where one of these fields has no place.
    Nothing(Items<Field>),
    /// The field of each of them counted up from the first value by the step, in their order.
    /// Refused: E02, then the first refusal of the lowest trace whose value is refused, each judged
    /// in the file as it was: E03, E04, E06.
    Renumber {
        field: Field,
        first_value: i128,
        step: i128,
    },
    /// The field of each of them from the source by the steps, strictly one after another, on whole
    /// numbers of that trace as it was. Refused: E02 where a field has no place, then the first
    /// refusal of the lowest trace that has one: E03, E13 or E04, E06.
    Compute {
        field: Field,
        source: Operand,
        steps: Items<(Operator, Operand)>,
    },
    /// All of them out.
    Delete,
    /// The numbers of the two fields of each of them in the place of one another. Refused: E02
    /// where one of the fields has no place, then the first refusal of the lowest trace that has
    /// one: E03 where it lacks one of the places, E04 and E06 of the second's number at the first
    /// place, then E04 and E06 of the first's number, as it was, at the second place.
    Swap(Field, Field),
    /// The value in each sample of them from the first to the last, both counted from 0; none where
    /// the first is above the last. Refused: E12 where samples have no values, E04 where the value
    /// does not fit their format, also where there is no trace; then E05 of the lowest trace
    /// without the greater of the two samples, which it names.
    Fill {
        first_sample: u32,
        last_sample: u32,
        value: i128,
    },
}
