use crate::text::Text;
use field_map::Place;

/// A field of a header.
#[derive(Drop)]
pub enum Field {
    /// The number at this place.
    Place(Place),
    /// The field of this name: of a trace a bound name, else one that is always known; of the
    /// binary header a name of its own.
    Name(Text),
}
