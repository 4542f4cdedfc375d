// The stanzas of text blocks.
ghost use Rattle.std.specs.Prelude.{◌≡◌, ◌++◌, map, string_bytes, OnOk, IfErr, IsErrOf};
ghost use Rattle.room.specs.Refusals.{Rises};
ghost use Rattle.bench_rules.specs.Answer.{numbered_stanzas};
ghost use Rattle.bench_rules.specs.declared.ask_fault.AskFault.TheVariants.{OutOfMemory as no_memory};

use bench_rules::{AskFault, Text};
use room::Room;
use text_block::{TEXT_BLOCK_BYTES, stanzas};

/// Adds the stanzas of a block, each with the block's number.
pub fn add_stanzas(
    room: &mut Room,
    all: &mut Vec<(u64, Text)>,
    number: u64,
    block: &[u8; TEXT_BLOCK_BYTES],
) -> Result<(), AskFault>
    ensures ok { OnOk result (all.new.items ≡ all.old.items ++ numbered_stanzas number block.now) }
    ensures err { IfErr result (λ fault. fault ≡ no_memory) }
    ensures memory { Rises (IsErrOf result AskFault.OutOfMemory) room.old room.new }
{
    let names = stanzas(room, block)?;
    add_names(room, all, number, names)
}

// Adds the names, each with the number.
fn add_names(
    room: &mut Room,
    all: &mut Vec<(u64, Text)>,
    number: u64,
    names: Vec<String>,
) -> Result<(), AskFault>
    ensures ok { OnOk result
        (all.new.items ≡ all.old.items ++ map (λ name. (number, string_bytes name)) names.items) }
    ensures err { IfErr result (λ fault. fault ≡ no_memory) }
    ensures memory { Rises (IsErrOf result AskFault.OutOfMemory) room.old room.new }
{
    for name in names {
        room.told_back(all.push((number, Text::new(name))))?;
    }
    Ok(())
}
