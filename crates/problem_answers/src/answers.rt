// The answer of the query for all that is wrong or doubtful.
ghost use Rattle.std.specs.Prelude.{◌≡◌, ◌⊎◌, ◌++◌, ◌<◌, ◌^◌, Bool, List, [], length, map, IfErr, IfOk, OnOk, if◌then◌else◌, IsErrOf};
ghost use Rattle.room.specs.Refusals.{Rises};
ghost use Rattle.trace_record.specs.Facts.{facts_of};
ghost use Rattle.trace_record.specs.Packed.{record_in};
ghost use Rattle.trace_view.specs.Values.{has_floats};
ghost use Rattle.edit_overlay.specs.CountedVolume.{IsSeen};
ghost use Rattle.edit_overlay.specs.Reads.{HaveAgreed};
ghost use Rattle.fault_live.specs.FaultKeys.{keys_of_faults};
ghost use Rattle.fault_live.specs.Faults.{faults_of};
ghost use Rattle.fault_live.specs.OfFaults.{tally_of_faults};
ghost use Rattle.frame_cut.specs.Traces.{count_of};
ghost use Rattle.grid_live.specs.Cells.{crosslines as crosslines_of, inlines as inlines_of};
ghost use Rattle.grid_live.specs.GridKeys.{keys_of_grid};
ghost use Rattle.grid_live.specs.OfGrid.{tally_of_grid};
ghost use Rattle.trace_record.specs.Tally.{Same, tally_of};
ghost use Rattle.bench_rules.specs.declared.ask_fault.AskFault.TheVariants.{OutOfMemory as no_memory};
ghost use Rattle.bench_rules.specs.declared.query.Query.TheVariants as queries;
ghost use Rattle.bench_rules.specs.Answer.{IsReply};
ghost use Rattle.bench_rules.specs.Live.{AreRecordsOf};
ghost use Rattle.bench_rules.specs.Problems.{delays_of, fault_problems, problems_with, sample_problems, survey_problems, value_problems};
ghost use Rattle.bench_rules.specs.ReadFaults.{IsFaultOfReads, IsReadFault};
ghost use Rattle.bench_rules.specs.Reports.{head_facts as head_facts_of};
ghost use Rattle.bench_rules.specs.State.{State};
ghost use Rattle.problem_answers.specs.Parts.{doubts_of, late_of};

use crate::delays::delays;
use crate::lines::{
    push_fold, push_group, push_groups, push_lines, push_missing_crosslines, push_missing_inlines,
    push_no_survey, push_of_file,
};
use crate::positions::push_of_positions;
use bench_rules::{Answer, AskFault, Items, ProblemLine, has_float_samples, is_shot_file};
use edit_overlay::Overlay;
use fault_live::{Faults, HeadFacts};
use field_map::FieldMap;
use grid_live::{Grid, Line};
use line_problems::{missing_lines, near_lines, no_survey, uneven_fold};
use record_table::Records;
use room::Room;
use trace_groups::{
    delay_group, far_crossline_group, far_inline_group, fault_groups, position_group,
    sample_groups, scalar_group,
};
use trace_record::PackedRecord;
use volume_answers::head_facts;

/// All that is wrong or doubtful, grouped. Looks once at each trace. Takes memory for the cells,
/// then for the delays, then for the faults, and for the answer: refused for want of it, E11; on
/// disk also where a trace could not be read (E14, E15).
pub fn problems_answer(
    room: &mut Room,
    overlay: &mut Overlay<PackedRecord>,
    fields: &FieldMap,
    grid: &Grid,
    triples: &Faults,
) -> Result<Answer, AskFault>
    requires few { length overlay.old.payloads < 2 ^ 32 }
    requires grid { Same (tally_of_grid grid.now) (tally_of keys_of_grid
        (map facts_of (map record_in overlay.old.payloads))) }
    requires triples { Same (tally_of_faults triples.now) (tally_of keys_of_faults
        (map facts_of (map record_in overlay.old.payloads))) }
    ensures reply { (s : State) → s.volume ≡ overlay.old.volume →
        s.fields ≡ fields.now.pairs → s.on_disk ≡ overlay.old.loaded.on_disk →
        HaveAgreed overlay.new.reads →
        AreRecordsOf s (map record_in overlay.old.payloads) →
        IsReply s queries.Problems result }
    ensures reads_tell { IfErr result (IsFaultOfReads overlay.old.reads overlay.new.reads) }
    ensures seen { IsSeen overlay.old overlay.new (count_of overlay.old.volume) }
    ensures memory { Rises (IsErrOf result AskFault.OutOfMemory) room.old room.new }
{
    // The cells are the most that is held: they come first, and go before the others are made.
    let shots = is_shot_file(fields);
    let doubts = match doubts(room, overlay, grid, shots) {
        Ok(lines) => lines,
        Err(fault) => return Err(fault),
    };
    let late = match late_traces(room, overlay) {
        Ok(lines) => lines,
        Err(fault) => return Err(fault),
    };
    match lines_of(
        room,
        overlay,
        grid,
        triples,
        late.as_slice(),
        doubts.as_slice(),
    ) {
        Ok(lines) => Ok(Answer::Problems(Items::new(lines))),
        Err(fault) => Err(fault),
    }
}

// S10 and S11, where the traces have survey numbers. No trace is looked at.
fn doubts(
    room: &mut Room,
    overlay: &Overlay<PackedRecord>,
    grid: &Grid,
    shots: bool,
) -> Result<Vec<ProblemLine>, AskFault>
    requires few { length overlay.now.payloads < 2 ^ 32 }
    requires grid { Same (tally_of_grid grid.now) (tally_of keys_of_grid
        (map facts_of (map record_in overlay.now.payloads))) }
    ensures ok { IfOk result (λ lines. lines.items ≡ doubts_of shots
        (map facts_of (map record_in overlay.now.payloads))) }
    ensures err { IfErr result (λ fault. fault ≡ no_memory) }
    ensures memory { Rises (IsErrOf result AskFault.OutOfMemory) room.old room.new }
{
    let records = Records::new(overlay.payloads());
    let inlines = grid.inlines(room)?;
    let crosslines = grid.crosslines(room)?;
    let lone = no_survey(inlines.as_slice(), crosslines.as_slice());
    let mut lines = Vec::new(room.alloc());
    push_of_positions(
        room,
        &mut lines,
        &records,
        inlines.as_slice(),
        crosslines.as_slice(),
        shots,
        lone.is_some(),
    )?;
    Ok(lines)
}

// S4. Looks once at each trace, and holds the delays no longer.
fn late_traces(
    room: &mut Room,
    overlay: &mut Overlay<PackedRecord>,
) -> Result<Vec<ProblemLine>, AskFault>
    ensures ok { IfOk result (λ lines. HaveAgreed overlay.new.reads →
        lines.items ≡ late_of (delays_of overlay.old.volume)) }
    ensures err { IfErr result (λ fault. (fault ≡ no_memory) ⊎
        (IsReadFault overlay.old.loaded.on_disk fault × (0 < count_of overlay.old.volume))) }
    ensures reads_tell { IfErr result (IsFaultOfReads overlay.old.reads overlay.new.reads) }
    ensures seen { IsSeen overlay.old overlay.new (count_of overlay.old.volume) }
    ensures memory { Rises (IsErrOf result AskFault.OutOfMemory) room.old room.new }
{
    let delays = delays(room, overlay)?;
    let found = delay_group(room, delays.as_slice())?;
    let mut lines = Vec::new(room.alloc());
    push_group(room, &mut lines, found)?;
    Ok(lines)
}

// The lines of all problems of a volume where these are S4 and these S10 and S11. No trace is
// looked at.
fn lines_of(
    room: &mut Room,
    overlay: &Overlay<PackedRecord>,
    grid: &Grid,
    triples: &Faults,
    late: &[ProblemLine],
    doubts: &[ProblemLine],
) -> Result<Vec<ProblemLine>, AskFault>
    requires few { length overlay.now.payloads < 2 ^ 32 }
    requires grid { Same (tally_of_grid grid.now) (tally_of keys_of_grid
        (map facts_of (map record_in overlay.now.payloads))) }
    requires triples { Same (tally_of_faults triples.now) (tally_of keys_of_faults
        (map facts_of (map record_in overlay.now.payloads))) }
    ensures ok { (delays : List _) (shots : Bool) → late.now ≡ late_of delays →
        doubts.now ≡ doubts_of shots (map facts_of (map record_in overlay.now.payloads)) →
        IfOk result (λ lines. lines.items ≡ problems_with
        (head_facts_of overlay.now.volume) (map facts_of (map record_in overlay.now.payloads))
        delays shots (has_floats overlay.now.volume.head)) }
    ensures err { IfErr result (λ fault. fault ≡ no_memory) }
    ensures memory { Rises (IsErrOf result AskFault.OutOfMemory) room.old room.new }
{
    let floats = has_float_samples(overlay);
    let head = head_facts(overlay.head(), overlay.text(), overlay.bin());
    let records = Records::new(overlay.payloads());
    problem_lines(room, &head, &records, grid, triples, late, doubts, floats)
}

// The lines of all problems of the traces with these records, where these are S4 and these S10 and
// S11.
fn problem_lines(
    room: &mut Room,
    head: &HeadFacts,
    records: &Records,
    grid: &Grid,
    triples: &Faults,
    late: &[ProblemLine],
    doubts: &[ProblemLine],
    floats: bool,
) -> Result<Vec<ProblemLine>, AskFault>
    requires few { length records.now < 2 ^ 32 }
    requires grid { Same (tally_of_grid grid.now) (tally_of keys_of_grid
        (map facts_of records.now)) }
    requires triples { Same (tally_of_faults triples.now) (tally_of keys_of_faults
        (map facts_of records.now)) }
    ensures ok { (delays : List _) (shots : Bool) → late.now ≡ late_of delays →
        doubts.now ≡ doubts_of shots (map facts_of records.now) →
        IfOk result (λ lines. lines.items ≡ problems_with head.now
        (map facts_of records.now) delays shots floats) }
    ensures err { IfErr result (λ fault. fault ≡ no_memory) }
    ensures memory { Rises (IsErrOf result AskFault.OutOfMemory) room.old room.new }
{
    let inlines = grid.inlines(room)?;
    let crosslines = grid.crosslines(room)?;
    let lone = no_survey(inlines.as_slice(), crosslines.as_slice());
    let mut lines = Vec::new(room.alloc());
    push_faults(room, &mut lines, head, records, triples, lone.is_some())?;
    push_no_survey(room, &mut lines, lone)?;
    push_of_headers(room, &mut lines, records, late, lone.is_some())?;
    push_of_survey(
        room,
        &mut lines,
        records,
        grid,
        inlines.as_slice(),
        crosslines.as_slice(),
        lone.is_some(),
    )?;
    push_lines(room, &mut lines, doubts)?;
    push_of_samples(room, &mut lines, records, floats)?;
    Ok(lines)
}

// F1 to F9; F6 is left out where the traces have no survey numbers.
fn push_faults(
    room: &mut Room,
    lines: &mut Vec<ProblemLine>,
    head: &HeadFacts,
    records: &Records,
    triples: &Faults,
    leaves_out: bool,
) -> Result<(), AskFault>
    requires few { length records.now < 2 ^ 32 }
    requires triples { Same (tally_of_faults triples.now) (tally_of keys_of_faults
        (map facts_of records.now)) }
    ensures ok { OnOk result (lines.new.items ≡ lines.old.items ++ fault_problems
        (faults_of head.now (map facts_of records.now)) leaves_out) }
    ensures err { IfErr result (λ fault. fault ≡ no_memory) }
    ensures memory { Rises (IsErrOf result AskFault.OutOfMemory) room.old room.new }
{
    let faults = triples.report(room, records, head)?;
    let groups = fault_groups(room, faults.as_slice(), leaves_out)?;
    push_groups(room, lines, groups.as_slice(), false)?;
    push_of_file(room, lines, faults.as_slice())?;
    push_groups(room, lines, groups.as_slice(), true)?;
    Ok(())
}

// S2, S3 and S4, which is at hand.
fn push_of_headers(
    room: &mut Room,
    lines: &mut Vec<ProblemLine>,
    records: &Records,
    late: &[ProblemLine],
    is_lone: bool,
) -> Result<(), AskFault>
    requires few { length records.now < 2 ^ 32 }
    ensures ok { (delays : List _) → late.now ≡ late_of delays →
        OnOk result (lines.new.items ≡ lines.old.items ++ value_problems
        (map facts_of records.now) delays is_lone) }
    ensures err { IfErr result (λ fault. fault ≡ no_memory) }
    ensures memory { Rises (IsErrOf result AskFault.OutOfMemory) room.old room.new }
{
    let found = position_group(room, records, is_lone)?;
    push_group(room, lines, found)?;
    let found = scalar_group(room, records)?;
    push_group(room, lines, found)?;
    push_lines(room, lines, late)?;
    Ok(())
}

// S5 to S9, where the traces have survey numbers.
fn push_of_survey(
    room: &mut Room,
    lines: &mut Vec<ProblemLine>,
    records: &Records,
    grid: &Grid,
    inlines: &[Line],
    crosslines: &[Line],
    is_lone: bool,
) -> Result<(), AskFault>
    requires few { length records.now < 2 ^ 32 }
    requires grid { Same (tally_of_grid grid.now) (tally_of keys_of_grid
        (map facts_of records.now)) }
    requires inlines { inlines.now ≡ inlines_of (map facts_of records.now) }
    requires crosslines { crosslines.now ≡ crosslines_of (map facts_of records.now) }
    ensures ok { OnOk result (lines.new.items ≡ lines.old.items
        ++ (if is_lone then [] else survey_problems (map facts_of records.now))) }
    ensures err { IfErr result (λ fault. fault ≡ no_memory) }
    ensures memory { Rises (IsErrOf result AskFault.OutOfMemory) room.old room.new }
{
    if is_lone {
        return Ok(());
    }
    let near = near_lines(room, inlines)?;
    let found = far_inline_group(room, records, near)?;
    push_group(room, lines, found)?;
    let near = near_lines(room, crosslines)?;
    let found = far_crossline_group(room, records, near)?;
    push_group(room, lines, found)?;
    let found = missing_lines(room, inlines)?;
    push_missing_inlines(room, lines, found)?;
    let found = missing_lines(room, crosslines)?;
    push_missing_crosslines(room, lines, found)?;
    let folds = grid.histogram(room)?;
    push_fold(room, lines, uneven_fold(folds.as_slice()))?;
    Ok(())
}

// S12 and S13. Of floats each value and amount is a rank.
fn push_of_samples(
    room: &mut Room,
    lines: &mut Vec<ProblemLine>,
    records: &Records,
    floats: bool,
) -> Result<(), AskFault>
    requires few { length records.now < 2 ^ 32 }
    ensures ok { OnOk result (lines.new.items ≡ lines.old.items
        ++ sample_problems floats (map facts_of records.now)) }
    ensures err { IfErr result (λ fault. fault ≡ no_memory) }
    ensures memory { Rises (IsErrOf result AskFault.OutOfMemory) room.old room.new }
{
    let (dead, loud) = sample_groups(room, records, floats)?;
    push_group(room, lines, dead)?;
    push_group(room, lines, loud)?;
    Ok(())
}
