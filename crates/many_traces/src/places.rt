// The places of the fields of a trace.
ghost use Rattle.std.specs.Prelude.{◌≡◌, Some, is_some, IfSome, IsNone, IsSome};
ghost use Rattle.room.specs.Refusals.{Rises};
ghost use Rattle.bench_rules.specs.ManyTraces.{each_of};
ghost use Rattle.bench_rules.specs.Places.{place_in_trace as place_of_field};

use bench_rules::{Field, place_in_trace};
use field_map::{FieldMap, Place};
use room::Room;

/// Whether each field has a place. Takes no memory.
pub fn have_places(map: &FieldMap, fields: &[Field]) -> bool
    ensures { result ≡ is_some (each_of (place_of_field map.now.pairs) fields.now) }
{
    for field in fields {
        if place_in_trace(map, field).is_none() {
            return false;
        }
    }
    true
}

/// The place of each field; `None` where one has none, or where there is no memory for the list:
/// only where a growth was refused in this call, if each has a place.
pub fn places_of(room: &mut Room, map: &FieldMap, fields: &[Field]) -> Option<Vec<Place>>
    ensures places { IfSome result (λ places. each_of (place_of_field map.now.pairs) fields.now
        ≡ Some places.items) }
    ensures memory { Rises (IsNone result × IsSome (each_of (place_of_field map.now.pairs)
        fields.now)) room.old room.new }
{
    let Ok(mut places) = room.told(Vec::with_capacity(room.alloc(), fields.len())) else {
        return None;
    };
    for field in fields {
        let place = place_in_trace(map, field)?;
        let Ok(()) = room.told_back(places.push(place)) else {
            return None;
        };
    }
    Some(places)
}
