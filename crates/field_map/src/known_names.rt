// The names of a trace's fields that are known whatever is bound.
ghost use Rattle.std.specs.Prelude.{◌≡◌};
ghost use Rattle.std.specs.Option.{option_or};
ghost use Rattle.std.specs.Str.{str_to_ascii_lowercase, str_eq_ignore_ascii_case};
ghost use Rattle.field_map.specs.Pairs.{IsPairAt, place_of, rows_shown, rows_in_lower_case};
ghost use Rattle.field_map.specs.HeaderNames.{header_names};
ghost use Rattle.field_map.specs.ToolNames.{unix_names};
ghost use Rattle.field_map.specs.KnownNames.{segyio_place, named_place};

use crate::place::Place;
use crate::tables::{HEADER_NAMES, SEGYIO_NAMES, UNIX_NAMES};

/// The place of a trace's field by a name that is known whatever is bound: of a field of the trace
/// header or its first extension (`total_static`), by a word of Seismic Unix (`tstat`), or by a
/// name of segyio in any case (`TotalStaticApplied`, `totalstaticapplied`). The others are found
/// only as they are written, in lower case. Takes no memory.
pub fn named(name: &str) -> Option<Place>
    ensures { result ≡ named_place name.now }
{
    // Each standard name stands among the header's at its place, so one search finds both.
    match place_in(&HEADER_NAMES, name) {
        Some(place) => Some(place),
        None => named_by_tools(name),
    }
}

// By a word of Seismic Unix, else by a name of segyio.
fn named_by_tools(name: &str) -> Option<Place>
    ensures { result ≡ option_or (place_of unix_names name.now) (segyio_place name.now) }
{
    match place_in(&UNIX_NAMES, name) {
        Some(place) => Some(place),
        None => place_in_any_case(&SEGYIO_NAMES, name),
    }
}

/// The name and the place of field `k`, from 0, of the trace header's fields that are whole
/// numbers, in the order of bytes: the main header's, then those of its first extension; `None`
/// from their number on. Takes no memory.
pub fn header_field(k: u32) -> Option<(&'static str, Place)>
    ensures { IsPairAt header_names k result }
{
    row(&HEADER_NAMES, k as usize)
}

fn row(table: &[(&'static str, Place)], k: usize) -> Option<(&'static str, Place)>
    ensures { IsPairAt (rows_shown table.now) k result }
{
    table.get(k).copied()
}

fn place_in(table: &[(&str, Place)], name: &str) -> Option<Place>
    ensures { result ≡ place_of (rows_shown table.now) name.now }
{
    for (known, place) in table {
        if name == *known {
            return Some(*place);
        }
    }
    None
}

fn place_in_any_case(table: &[(&str, Place)], name: &str) -> Option<Place>
    ensures { result ≡ place_of (rows_in_lower_case table.now) (str_to_ascii_lowercase name.now) }
{
    for (known, place) in table {
        if is_same_in_any_case(name, known) {
            return Some(*place);
        }
    }
    None
}

#[tactic(auto, using(crate::proofs::RowLemmas::tested))]
fn is_same_in_any_case(name: &str, other: &str) -> bool
    ensures { result ≡ str_eq_ignore_ascii_case name.now other.now }
{
    name.eq_ignore_ascii_case(other)
}
