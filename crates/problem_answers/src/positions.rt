// What is doubtful in the positions of cells, and the answer of the query for the survey's grid.
ghost use Rattle.std.specs.Prelude.{◌≡◌, ◌++◌, ◌<◌, ◌^◌, [], length, map, IfErr, OnOk, if◌then◌else◌, IsErrOf};
ghost use Rattle.room.specs.Refusals.{Rises};
ghost use Rattle.trace_record.specs.Facts.{facts_of};
ghost use Rattle.trace_record.specs.Packed.{record_in};
ghost use Rattle.trace_record.specs.Tally.{Same, tally_of};
ghost use Rattle.grid_live.specs.Cells.{crosslines as crosslines_of, inlines as inlines_of};
ghost use Rattle.grid_live.specs.GridKeys.{keys_of_grid};
ghost use Rattle.grid_live.specs.OfGrid.{tally_of_grid};
ghost use Rattle.bench_rules.specs.declared.ask_fault.AskFault.TheVariants.{OutOfMemory as no_memory};
ghost use Rattle.bench_rules.specs.declared.query.Query.TheVariants as queries;
ghost use Rattle.bench_rules.specs.Answer.{IsReply};
ghost use Rattle.bench_rules.specs.Live.{AreRecordsOf};
ghost use Rattle.bench_rules.specs.Problems.{position_problems};
ghost use Rattle.bench_rules.specs.ReadFaults.{IsFaultOfNoRead};
ghost use Rattle.bench_rules.specs.State.{State};

use crate::lines::{push_jumps, push_shared};
use bench_rules::{Answer, AskFault, ProblemLine};
use edit_overlay::Overlay;
use grid_live::{Grid, Line};
use record_table::Records;
use room::Room;
use survey_cells::{find_cells, position_jumps, shared_positions, survey_grid};
use trace_record::PackedRecord;

/// S10 and S11, where the traces have survey numbers. Takes memory for the cells and what it finds.
pub(crate) fn push_of_positions(
    room: &mut Room,
    lines: &mut Vec<ProblemLine>,
    records: &Records,
    inlines: &[Line],
    crosslines: &[Line],
    shots: bool,
    is_lone: bool,
) -> Result<(), AskFault>
    requires few { length records.now < 2 ^ 32 }
    requires inlines { inlines.now ≡ inlines_of (map facts_of records.now) }
    requires crosslines { crosslines.now ≡ crosslines_of (map facts_of records.now) }
    ensures ok { OnOk result (lines.new.items ≡ lines.old.items
        ++ (if is_lone then [] else position_problems shots (map facts_of records.now))) }
    ensures err { IfErr result (λ fault. fault ≡ no_memory) }
    ensures memory { Rises (IsErrOf result AskFault.OutOfMemory) room.old room.new }
{
    if is_lone {
        return Ok(());
    }
    let cells = find_cells(room, records)?;
    let jumps = position_jumps(room, cells.as_slice(), inlines, crosslines, shots)?;
    push_jumps(room, lines, jumps)?;
    let found = shared_positions(room, cells, shots)?;
    push_shared(room, lines, found)?;
    Ok(())
}

/// The grid of the survey in one line. Looks at no trace. Takes memory for the cells, the lines and
/// the differences of positions while it is made; refused for want of it alone, E11.
pub fn survey_answer(
    room: &mut Room,
    overlay: &Overlay<PackedRecord>,
    grid: &Grid,
) -> Result<Answer, AskFault>
    requires few { length overlay.now.payloads < 2 ^ 32 }
    requires grid { Same (tally_of_grid grid.now) (tally_of keys_of_grid
        (map facts_of (map record_in overlay.now.payloads))) }
    ensures reply { (s : State) → AreRecordsOf s (map record_in overlay.now.payloads) →
        IsReply s queries.Survey result }
    ensures unread { IfErr result IsFaultOfNoRead }
    ensures memory { Rises (IsErrOf result AskFault.OutOfMemory) room.old room.new }
{
    let records = Records::new(overlay.payloads());
    let inlines = grid.inlines(room)?;
    let crosslines = grid.crosslines(room)?;
    let cells = find_cells(room, &records)?;
    let cells = cells.as_slice();
    let grid = survey_grid(room, cells, inlines.as_slice(), crosslines.as_slice())?;
    Ok(Answer::Survey(grid))
}
