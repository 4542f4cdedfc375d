// The names that a mapping binds.
ghost use Rattle.std.specs.Prelude.{◌≡◌};
ghost use Rattle.field_map.specs.Pairs.{rows_shown};
ghost use Rattle.bench_rules.specs.Mappings.{bindings as bindings_of};

use crate::mapping::Mapping;
use field_map::Place;
use num_order::Kind;

macro_rules! signed {
    ($byte:expr, $size:expr) => {
        Place {
            extension: 0,
            byte: $byte,
            kind: Kind {
                size: $size,
                signed: true,
            },
        }
    };
}

const SHOT: [(&str, Place); 4] = [
    ("inline", signed!(9, 4)), // field_record
    ("crossline", signed!(13, 4)), // trace_in_record
    ("x", signed!(81, 4)), // group_x
    ("y", signed!(85, 4)), // group_y
];

const USUAL: [(&str, Place); 6] = [
    ("inline", signed!(189, 4)),
    ("crossline", signed!(193, 4)),
    ("offset", signed!(37, 4)),
    ("x", signed!(181, 4)),
    ("y", signed!(185, 4)),
    ("scalar", signed!(71, 2)),
];

/// The geometry names that the mapping binds, in their order, each with its place. Takes no memory.
pub fn bindings(mapping: Mapping) -> &'static [(&'static str, Place)]
    ensures { rows_shown result.now ≡ bindings_of mapping }
{
    match mapping {
        Mapping::Shot => &SHOT,
        Mapping::Usual => &USUAL,
    }
}
