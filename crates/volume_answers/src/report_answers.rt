// The answers of the reports, from the records of a volume's traces and the values that run with
// them. None looks at a trace.
ghost use Rattle.std.specs.Prelude.{◌≡◌, ◌<◌, ◌^◌, ℕ, List, length, false, Ok, IsErrOf, IfErr};
ghost use Rattle.room.specs.Refusals.{Rises};
ghost use Rattle.field_map.specs.Pairs.{Pairs};
ghost use Rattle.frame_cut.specs.declared.file_head.Head.{Head as Heads};
ghost use Rattle.trace_view.specs.Values.{has_floats, samples_of};
ghost use Rattle.trace_record.specs.Facts.{facts_of};
ghost use Rattle.trace_record.specs.OfTrace.{record_of};
ghost use Rattle.trace_record.specs.Statistics.{statistics_of};
ghost use Rattle.range_stats.specs.OfTally.{statistics_from};
ghost use Rattle.bench_rules.specs.declared.answer.Answer.TheVariants as answers;
ghost use Rattle.bench_rules.specs.declared.query.Query.TheVariants as queries;
ghost use Rattle.bench_rules.specs.Answer.{answer, IsReply};
ghost use Rattle.bench_rules.specs.Live.{AreRecordsOf, IsGridOf, AreRangesOf, AreTotalsOf, AreTriplesOf};
ghost use Rattle.bench_rules.specs.Reports.{head_facts as head_facts_of, location_of, totals_in};
ghost use Rattle.bench_rules.specs.ReadFaults.{IsFaultOfNoRead};
ghost use Rattle.bench_rules.specs.State.{State};

use bench_rules::{Answer, AskFault, Items, Location};
use fault_live::{Faults, HeadFacts};
use grid_live::Grid;
use range_stats::{Quantity, Ranges, Totals};
use record_table::Records;
use room::Room;
use trace_record::{Record, Statistics};

/// Where the trace of this record lies. Takes no memory.
pub fn geometry(trace: &Record) -> Answer
    ensures { result ≡ answers.Geometry (location_of (facts_of trace.now)) }
{
    Answer::Geometry(Location {
        inline: trace.inline,
        crossline: trace.crossline,
        offset: trace.offset,
        x: trace.x,
        y: trace.y,
    })
}

/// The statistics of the samples of the trace of this record, where they are whole numbers, as far
/// as they have values. Takes no memory.
pub fn stat(trace: &Record) -> Answer
    ensures { (h : Heads) (fields : Pairs) (t : List ℕ) → has_floats h ≡ false →
        facts_of trace.now ≡ record_of h fields t →
        result ≡ answers.Stat (statistics_of false (samples_of h t)) }
{
    let Some(amplitudes) = trace.amplitudes else {
        return Answer::Stat(None);
    };
    Answer::Stat(Some(Statistics {
        least: amplitudes.least,
        greatest: amplitudes.greatest,
        sum: amplitudes.sum,
        number: u64::from(trace.number),
    }))
}

/// How many traces have this inline and crossline, any two numbers. Takes no memory.
pub fn fold(grid: &Grid, inline: i128, crossline: i128) -> Answer
    ensures { (s : State) → IsGridOf s grid.now →
        Ok result ≡ answer s (queries.Fold inline crossline) }
{
    Answer::Fold(grid.fold(inline, crossline))
}

/// The cells that have traces. Takes memory for the list; refused for want of it alone, E11.
pub fn cells(room: &mut Room, grid: &Grid) -> Result<Answer, AskFault>
    ensures reply { (s : State) → IsGridOf s grid.now → IsReply s queries.Grid result }
    ensures unread { IfErr result IsFaultOfNoRead }
    ensures memory { Rises (IsErrOf result AskFault.OutOfMemory) room.old room.new }
{
    Ok(Answer::Grid(Items::new(grid.cells(room)?)))
}

/// The inlines that have traces. Takes memory for the list; refused for want of it alone, E11.
pub fn inlines(room: &mut Room, grid: &Grid) -> Result<Answer, AskFault>
    ensures reply { (s : State) → IsGridOf s grid.now → IsReply s queries.Inlines result }
    ensures unread { IfErr result IsFaultOfNoRead }
    ensures memory { Rises (IsErrOf result AskFault.OutOfMemory) room.old room.new }
{
    Ok(Answer::Inlines(Items::new(grid.inlines(room)?)))
}

/// The crosslines that have traces. Takes memory for the list; refused for want of it alone, E11.
pub fn crosslines(room: &mut Room, grid: &Grid) -> Result<Answer, AskFault>
    ensures reply { (s : State) → IsGridOf s grid.now → IsReply s queries.Crosslines result }
    ensures unread { IfErr result IsFaultOfNoRead }
    ensures memory { Rises (IsErrOf result AskFault.OutOfMemory) room.old room.new }
{
    Ok(Answer::Crosslines(Items::new(grid.crosslines(room)?)))
}

/// How many cells have each fold. Takes memory for the list and while it is made; refused for want
/// of it alone, E11.
pub fn histogram(room: &mut Room, grid: &Grid) -> Result<Answer, AskFault>
    ensures reply { (s : State) → IsGridOf s grid.now → IsReply s queries.Histogram result }
    ensures unread { IfErr result IsFaultOfNoRead }
    ensures memory { Rises (IsErrOf result AskFault.OutOfMemory) room.old room.new }
{
    Ok(Answer::Histogram(Items::new(grid.histogram(room)?)))
}

/// The least and the greatest value of this kind. Takes no memory.
pub fn range(ranges: &Ranges, quantity: Quantity) -> Answer
    ensures { (s : State) → AreRangesOf s ranges.now →
        Ok result ≡ answer s (queries.Range quantity) }
{
    Answer::Range(ranges.range(quantity))
}

/// The statistics of all samples that have values. Takes no memory.
pub fn totals(totals: &Totals) -> Answer
    ensures { (s : State) → AreTotalsOf s totals.now → result ≡ answers.Totals (totals_in s) }
{
    let least = totals.least();
    let greatest = totals.greatest();
    Answer::Totals(all_four(least, greatest, totals.sum(), totals.number()))
}

// The four as statistics, and none without a least or a greatest sample.
fn all_four(
    least: Option<i128>,
    greatest: Option<i128>,
    sum: i128,
    number: u64,
) -> Option<Statistics>
    ensures { result ≡ statistics_from least greatest sum number }
{
    match (least, greatest) {
        (Some(least), Some(greatest)) => Some(Statistics {
            least,
            greatest,
            sum,
            number,
        }),
        _ => None,
    }
}

/// The faults of the file with these headers and records. Takes memory for the list and while it is
/// made; refused for want of it alone, E11.
pub fn faults(
    room: &mut Room,
    triples: &Faults,
    records: &Records,
    head: &HeadFacts,
) -> Result<Answer, AskFault>
    requires { length records.now < 2 ^ 32 }
    ensures reply { (s : State) → AreTriplesOf s triples.now → AreRecordsOf s records.now →
        head.now ≡ head_facts_of s.volume → IsReply s queries.Faults result }
    ensures unread { IfErr result IsFaultOfNoRead }
    ensures memory { Rises (IsErrOf result AskFault.OutOfMemory) room.old room.new }
{
    Ok(Answer::Faults(Items::new(triples.report(room, records, head)?)))
}
