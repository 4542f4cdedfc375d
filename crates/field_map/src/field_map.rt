ghost use Rattle.std.specs.Prelude.{◌≡◌, ◌⊎◌, true, Some, None, IsErr, IsErrOf, IfOk, IfErr, OnOk, OnErr, MatchResult};
ghost use Rattle.room.specs.Refusals.{Rises};
ghost use Rattle.field_map.specs.Pairs.{shown, bound, unbound, place_of, is_bound};
ghost use Rattle.field_map.specs.Binding.{geometry_at_load, HasGeometry, is_geometry, is_geometry_place, bind_fault, unbind_fault, further_names, is_full};
ghost use Rattle.field_map.specs.SixPlaces.{AreSixPlaces};
ghost use Rattle.field_map.specs.declared.map_fault.MapFault.TheVariants.{OutOfMemory as no_memory};

use crate::entries::Entries;
use crate::geometry::Geometry;
use crate::map_fault::MapFault;
use crate::names::{signed_at, standard};
use crate::place::Place;
use crate::rules::{is_bad_kind, is_geometry, is_name, is_outside};
use indexmap::IndexMap;
use room::{OutOfMemory, Room};
use std::marker::Model;

/// The names that are bound to places in trace headers, in the order of their first binding: the
/// six geometry names `inline`, `crossline`, `offset`, `x`, `y` and `scalar`, which are always
/// bound, and up to 64 further ones.
#[derive(Drop)]
pub struct FieldMap {
    extensions: u8,
    map: IndexMap<String, Place>,
    geometry: Geometry,
}

impl Model for FieldMap {
    ghost use Rattle.field_map.specs.Maps.{NameMap};

    ghost Value = { NameMap };

    ghost use Rattle.field_map.specs.Held.{map_of, IsHeld};

    ghost view = { map_of };

    ghost invariant = { IsHeld };
}

impl FieldMap {
    /// The map of a file that was just loaded, whose traces have at most so many header extensions:
    /// the six geometry names at their standard places. Takes memory, and is refused for want of it
    /// alone.
    pub fn standard(room: &mut Room, extensions: u8) -> Result<FieldMap, OutOfMemory>
        ensures extensions { IfOk result (λ m. m.extensions ≡ extensions) }
        ensures pairs { IfOk result (λ m. m.pairs ≡ geometry_at_load) }
        ensures memory { Rises (IsErr result) room.old room.new }
    {
        let mut map = IndexMap::new(room.alloc());
        put(&mut map, room, "inline", signed_at(189, 4))?;
        put(&mut map, room, "crossline", signed_at(193, 4))?;
        put(&mut map, room, "offset", signed_at(37, 4))?;
        put(&mut map, room, "x", signed_at(181, 4))?;
        put(&mut map, room, "y", signed_at(185, 4))?;
        put(&mut map, room, "scalar", signed_at(71, 2))?;
        let geometry = six_places(&map, extensions);
        Ok(FieldMap {
            extensions,
            map,
            geometry,
        })
    }

    /// Each geometry name is bound, to a place where it may stand: a signed number of 2 or 4 bytes,
    /// the scalar of 2, inside the main header or, where the file has header extensions, the first
    /// of them. Does nothing: its contract is the law.
    pub fn geometry_stands(&self)
        ensures { HasGeometry self.now.extensions self.now.pairs }
    {
        // Brings the invariant into the proof, and does nothing at run time.
        let _extensions = self.extensions;
    }

    /// The places of the six geometry names, each where its name may stand, without a look-up.
    /// Takes no memory.
    pub fn geometry(&self) -> Geometry
        ensures { AreSixPlaces self.now.extensions self.now.pairs result }
    {
        self.geometry
    }

    /// The place of a bound name. Takes no memory.
    pub fn place(&self, name: &str) -> Option<Place>
        ensures { result ≡ place_of self.now.pairs name.now }
    {
        self.map.get(name).copied()
    }

    /// The bound names with their places, in the order of their first binding. Takes no memory.
    pub fn entries(&self) -> Entries<'_>
        ensures { result ≡ self.now.pairs }
    {
        Entries::new(self.map.iter())
    }

    /// Gives a geometry name another place where it may stand. Takes no memory.
    pub fn set_geometry(&mut self, name: &str, place: Place)
        requires name { is_geometry name.now ≡ true }
        requires place { is_geometry_place self.old.extensions name.now place ≡ true }
        ensures extensions { self.new.extensions ≡ self.old.extensions }
        ensures pairs { self.new.pairs ≡ bound self.old.pairs name.now place }
    {
        set_place(&mut self.map, name, place);
        self.geometry = six_places(&self.map, self.extensions);
    }

    // Whether the name is bound.
    fn is_bound(&self, name: &str) -> bool
        ensures { result ≡ is_bound self.now.pairs name.now }
    {
        self.map.get(name).is_some()
    }

    /// Binds the name to the place: a bound name gets its new place where it stands, and a new one
    /// goes last. Takes memory. Refused, and nothing is changed: M01 for a name that is none, M02
    /// where the place goes past its header or stands in an extension that the name may not stand
    /// in, M03 for a kind that no number or no geometry name has, M04 for a new name where 64
    /// further names are bound, M07 for a standard name; then where a growth was refused.
    pub fn bind(&mut self, room: &mut Room, name: &str, place: Place) -> Result<(), MapFault>
        ensures ok { OnOk result
            ((bind_fault self.old.extensions self.old.pairs name.now place ≡ None)
            × (self.new.pairs ≡ bound self.old.pairs name.now place)) }
        ensures extensions { self.new.extensions ≡ self.old.extensions }
        ensures fault { IfErr result
            (λ fault. (bind_fault self.old.extensions self.old.pairs name.now place ≡ Some fault)
            ⊎ ((bind_fault self.old.extensions self.old.pairs name.now place ≡ None) ×
            (fault ≡ no_memory))) }
        ensures err { OnErr result (self.new ≡ self.old) }
        ensures memory { Rises (IsErrOf result MapFault.OutOfMemory) room.old room.new }
    {
        match self.binding_refusal(name, place) {
            Some(fault) => Err(fault),
            None => {
                put(&mut self.map, room, name, place)?;
                self.geometry = six_places(&self.map, self.extensions);
                Ok(())
            }
        }
    }

    /// Leaves out the name, and keeps the order of the rest. Takes no memory. Refused, and nothing
    /// is changed: M05 for a geometry name, M06 for a name that is not bound.
    pub fn unbind(&mut self, name: &str) -> Result<(), MapFault>
        ensures ok { OnOk result ((unbind_fault self.old.pairs name.now ≡ None)
            × (self.new.pairs ≡ unbound self.old.pairs name.now)) }
        ensures extensions { self.new.extensions ≡ self.old.extensions }
        ensures fault { IfErr result (λ fault. unbind_fault self.old.pairs name.now ≡ Some fault) }
        ensures err { OnErr result (self.new ≡ self.old) }
    {
        if is_geometry(name) {
            return Err(MapFault::Geometry);
        }
        if !self.is_bound(name) {
            return Err(MapFault::Unknown);
        }
        take_out(&mut self.map, name);
        self.geometry = six_places(&self.map, self.extensions);
        Ok(())
    }

    /// The first reason not to bind the name to the place, want of memory aside: M01 to M04 and
    /// M07, as `bind` has them. Takes no memory.
    pub fn binding_refusal(&self, name: &str, place: Place) -> Option<MapFault>
        ensures { result ≡ bind_fault self.now.extensions self.now.pairs name.now place }
    {
        if !is_name(name) {
            Some(MapFault::BadName)
        } else if is_outside(self.extensions, name, place) {
            Some(MapFault::OutsideHeader)
        } else if is_bad_kind(name, place.kind) {
            Some(MapFault::BadKind)
        } else if self.is_full(name) {
            Some(MapFault::Full)
        } else if standard(name).is_some() {
            Some(MapFault::Standard)
        } else {
            None
        }
    }

    // Whether a new name finds no room.
    fn is_full(&self, name: &str) -> bool
        ensures { result ≡ is_full self.now.pairs name.now }
    {
        !self.is_bound(name) && self.further_names() >= 64
    }

    // How many further names are bound.
    fn further_names(&self) -> usize
        ensures { result ≡ further_names self.now.pairs }
    {
        let mut count = 0;
        for (name, _) in self.map.iter() {
            if !is_geometry(name.as_str()) {
                count += 1;
            }
        }
        count
    }
}

// The places of the six geometry names, which are bound.
fn six_places(map: &IndexMap<String, Place>, extensions: u8) -> Geometry
    requires { HasGeometry extensions (shown map.now.entries) }
    ensures stand { HasGeometry extensions (shown map.now.entries) }
    ensures places { AreSixPlaces extensions (shown map.now.entries) result }
{
    Geometry {
        inline: held_place(map, "inline"),
        crossline: held_place(map, "crossline"),
        offset: held_place(map, "offset"),
        x: held_place(map, "x"),
        y: held_place(map, "y"),
        scalar: held_place(map, "scalar"),
    }
}

// The place of a name that is bound.
fn held_place(map: &IndexMap<String, Place>, name: &str) -> Place
    requires { is_bound (shown map.now.entries) name.now ≡ true }
    ensures { place_of (shown map.now.entries) name.now ≡ Some result }
{
    match map.get(name) {
        Some(place) => *place,
        None => unreachable!(),
    }
}

// Binds the name, whatever it is.
fn put(
    map: &mut IndexMap<String, Place>,
    room: &mut Room,
    name: &str,
    place: Place,
) -> Result<(), OutOfMemory>
    ensures ok { OnOk result (shown map.new.entries ≡ bound (shown map.old.entries) name.now
        place) }
    ensures err { OnErr result (shown map.new.entries ≡ shown map.old.entries) }
    ensures memory { Rises (IsErr result) room.old room.new }
{
    let made = String::from_str(room.alloc(), name);
    let key = room.told(made)?;
    let inserted = map.insert(key, place);
    room.told_back(inserted)?;
    Ok(())
}

// Gives a bound name another place.
fn set_place(map: &mut IndexMap<String, Place>, name: &str, place: Place)
    requires { is_bound (shown map.old.entries) name.now ≡ true }
    ensures { shown map.new.entries ≡ bound (shown map.old.entries) name.now place }
{
    if let Some(held) = map.get_mut(name) {
        *held = place;
    }
}

fn take_out(map: &mut IndexMap<String, Place>, name: &str)
    ensures { shown map.new.entries ≡ unbound (shown map.old.entries) name.now }
{
    let _place = map.shift_remove(name);
}
