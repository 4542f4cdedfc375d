// The names of header fields, with their places.
ghost use Rattle.std.specs.Prelude.{◌≡◌, ◌++◌, [], IfOk, IfErr, OnOk, IsErrOf};
ghost use Rattle.room.specs.Refusals.{Rises};
ghost use Rattle.bench_rules.specs.declared.ask_fault.AskFault.TheVariants.{OutOfMemory as no_memory};
ghost use Rattle.bench_rules.specs.Headers.{header_places as header_places_of, named_places as named_places_of};

use bench_rules::{AskFault, Text};
use field_map::{FieldMap, Place, header_field};
use room::Room;

/// The names of the standard's trace header, in the order of bytes, then the bound names in the
/// map's order, each with the place that it means: a name that is bound means the place that it is
/// bound to. Takes memory; refused for want of it alone.
pub fn named_places(room: &mut Room, fields: &FieldMap) -> Result<Vec<(Text, Place)>, AskFault>
    ensures ok { IfOk result (λ names. names.items ≡ named_places_of fields.now.pairs) }
    ensures err { IfErr result (λ fault. fault ≡ no_memory) }
    ensures memory { Rises (IsErrOf result AskFault.OutOfMemory) room.old room.new }
{
    let mut names = header_places(room, fields)?;
    for (name, place) in fields.entries() {
        let text = room.told(String::from_str(room.alloc(), name))?;
        room.told_back(names.push((Text::new(text), place)))?;
    }
    Ok(names)
}

// The names of the standard's trace header with the places that they mean.
fn header_places(room: &mut Room, fields: &FieldMap) -> Result<Vec<(Text, Place)>, AskFault>
    ensures ok { IfOk result (λ names. names.items ≡ header_places_of fields.now.pairs) }
    ensures err { IfErr result (λ fault. fault ≡ no_memory) }
    ensures memory { Rises (IsErrOf result AskFault.OutOfMemory) room.old room.new }
{
    let mut names = Vec::new(room.alloc());
    for k in 0..u32::MAX {
        let Some((name, standard)) = header_field(k) else {
            return Ok(names);
        };
        let place = fields.place(name).unwrap_or(standard);
        let text = room.told(String::from_str(room.alloc(), name))?;
        room.told_back(names.push((Text::new(text), place)))?;
    }
    Ok(names)
}
