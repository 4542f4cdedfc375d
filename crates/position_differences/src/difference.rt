ghost use Rattle.std.specs.Prelude.{◌≡◌};
ghost use Rattle.key_counts.specs.Parts.{FitsCoordinate};
ghost use Rattle.position_differences.specs.Differences.{difference_of};

use crate::fractions::{LastFractions, above};
use key_counts::Ratio;

/// Where something stands: two coordinates under their scalar.
#[derive(Debug, Clone, Copy, PartialEq, Eq)]
pub struct Position {
    pub x: Ratio,
    pub y: Ratio,
}

/// How far one position lies above another, in x and in y. Ordered by x and then by y.
#[derive(Debug, Clone, Copy, PartialEq, Eq, PartialOrd, Ord)]
pub struct Difference {
    pub x: Ratio,
    pub y: Ratio,
}

/// Differences that came last: one that comes again is told in less time. Whatever they are, each
/// answer is the same.
#[derive(Debug, Clone, Copy)]
pub struct LastDifferences {
    x: LastFractions,
    y: LastFractions,
}

impl LastDifferences {
    /// None yet: a difference of 0 stands in the places of both.
    pub fn new() -> LastDifferences {
        let none = Ratio::whole(0);
        let fractions = LastFractions {
            newer: none,
            older: none,
        };
        LastDifferences {
            x: fractions,
            y: fractions,
        }
    }
}

/// How far the second position lies above the first, exactly, whatever `last` holds; it is put
/// there, too.
pub fn difference_between(from: &Position, to: &Position, last: &mut LastDifferences) -> Difference
    requires from_x { FitsCoordinate from.now.x }
    requires from_y { FitsCoordinate from.now.y }
    requires to_x { FitsCoordinate to.now.x }
    requires to_y { FitsCoordinate to.now.y }
    ensures { result ≡ difference_of from.now to.now }
{
    Difference {
        x: above(from.x, to.x, &mut last.x),
        y: above(from.y, to.y, &mut last.y),
    }
}
