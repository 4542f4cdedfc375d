use crate::place::Place;
use indexmap::map::Iter;
use std::marker::Model;

/// The bound names with their places, in the map's order; seen as the list of those that are left.
#[derive(Drop)]
pub struct Entries<'a> {
    left: Iter<'a, String, Place>,
}

impl<'a> Model for Entries<'a> {
    ghost use Rattle.field_map.specs.Pairs.{Pairs, shown};

    ghost Value = { Pairs };

    ghost view = { λ e. shown e.left };
}

impl<'a> Entries<'a> {
    ghost use Rattle.std.specs.Prelude.{◌≡◌};
    ghost use Rattle.field_map.specs.Pairs.{shown};

    pub(crate) fn new(left: Iter<'a, String, Place>) -> Entries<'a>
        ensures { result ≡ shown left.entry }
    {
        Entries { left }
    }
}

impl<'a> Iterator for Entries<'a> {
    ghost use Rattle.std.specs.Prelude.{length};
    ghost use Rattle.std.specs.Iterator.{at_most};
    ghost use Rattle.field_map.specs.Pairs.{GivesFirst};

    type Item = (&'a str, Place);

    ghost next_gives = { GivesFirst };

    ghost remaining = { λ s. at_most (length s) };

    fn next(&mut self) -> Option<(&'a str, Place)> {
        let (name, place) = self.left.next()?;
        Some((name.as_str(), *place))
    }
}
