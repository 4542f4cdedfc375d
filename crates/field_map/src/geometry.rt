use crate::place::Place;

/// The places of the six geometry names of a field map.
#[derive(Clone, Copy, Debug, PartialEq, Eq)]
pub struct Geometry {
    pub inline: Place,
    pub crossline: Place,
    pub offset: Place,
    pub x: Place,
    pub y: Place,
    pub scalar: Place,
}
