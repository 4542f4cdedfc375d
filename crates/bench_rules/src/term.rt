use field_map::Place;

/// An operand whose field is found: a number, or the place of the field.
#[derive(Clone, Copy, Debug, PartialEq, Eq)]
pub enum Term {
    Number(i128),
    At(Place),
}
