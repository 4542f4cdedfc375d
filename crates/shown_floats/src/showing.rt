// The words that are printed for floats.
ghost use Rattle.std.specs.Prelude.{◌≡◌, None, IfOk, IfErr, IfSome, IsErr};
ghost use Rattle.std.specs.Ordering.{int_eq};
ghost use Rattle.room.specs.Refusals.{Rises};
ghost use Rattle.float_codes.specs.Ranks.{no_number};
ghost use Rattle.shown_floats.specs.Shows.{Shows, ShowsEnds, ShowsEndsOf, ShowsNumbers, ShowsRows, ShowsStat, ShowsTotals, ShowsTraces, IsList, IsOther};

use crate::float_answer::{
    FloatAnswer, FloatRow, ShownEnds, ShownStatistics, ShownTotals, ShownTrace,
};
use crate::float_word::FloatWord;
use crate::problems::problems;
use bench_rules::{Answer, FloatStatistics, FloatTraceStatistics, Items, Row};
use float_codes::{FloatFormat, NO_NUMBER};
use room::{OutOfMemory, Room};
use trace_record::Statistics;

/// The answer with the words of its floats, where it is one about samples; `Ok(None)` of any other.
/// Takes memory for the items of a list alone, and gives up only where a growth was refused in this
/// call.
pub fn shown(
    room: &mut Room,
    format: FloatFormat,
    answer: &Answer,
) -> Result<Option<FloatAnswer>, OutOfMemory>
    ensures shown { IfOk result (λ o. IfSome o (λ shown. Shows format answer.now shown)) }
    ensures other { IfOk result (λ o. o ≡ None → IsOther answer.now) }
    ensures list { IfErr result (λ _. IsList answer.now) }
    ensures memory { Rises (IsErr result) room.old room.new }
{
    match answer {
        Answer::Value(rank) => Ok(Some(FloatAnswer::Value(FloatWord::of(format, *rank)))),
        Answer::FloatStat(found) => Ok(Some(FloatAnswer::Stat(stat(format, *found)))),
        Answer::Totals(found) => Ok(Some(FloatAnswer::Totals(totals(format, *found)))),
        Answer::Slice(rows) => {
            Ok(Some(FloatAnswer::Slice(slice(room, format, rows.as_slice())?)))
        }
        Answer::Problems(lines) => {
            let shown = problems(room, format, lines.as_slice())?;
            Ok(Some(FloatAnswer::Problems(shown)))
        }
        Answer::FloatStats(traces) => {
            Ok(Some(FloatAnswer::Stats(stats(room, format, traces.as_slice())?)))
        }
        _ => Ok(None),
    }
}

fn stat(format: FloatFormat, found: Option<FloatStatistics>) -> Option<ShownStatistics>
    ensures { ShowsStat format found result }
{
    let found = found?;
    Some(ShownStatistics {
        of_numbers: of_numbers(format, found),
        number: found.number,
        no_numbers: found.no_numbers,
    })
}

fn of_numbers(format: FloatFormat, found: FloatStatistics) -> Option<(ShownEnds, FloatWord)>
    ensures { ShowsNumbers format (int_eq found.least no_number) found result }
{
    if found.least == i128::from(NO_NUMBER) {
        return None;
    }
    let sum = FloatWord::of(FloatFormat::Ieee64, i128::from(found.sum));
    Some((ends(format, found.least, found.greatest), sum))
}

fn ends(format: FloatFormat, least: i128, greatest: i128) -> ShownEnds
    ensures { ShowsEnds format least greatest result }
{
    ShownEnds {
        least: FloatWord::of(format, least),
        greatest: FloatWord::of(format, greatest),
    }
}

fn totals(format: FloatFormat, found: Option<Statistics>) -> Option<ShownTotals>
    ensures { ShowsTotals format found result }
{
    let found = found?;
    Some(ShownTotals {
        ends: ends_of(format, found),
        number: found.number,
        no_numbers: found.sum,
    })
}

fn ends_of(format: FloatFormat, found: Statistics) -> Option<ShownEnds>
    ensures { ShowsEndsOf format (int_eq found.least no_number) found.least found.greatest result }
{
    if found.least == i128::from(NO_NUMBER) {
        return None;
    }
    Some(ends(format, found.least, found.greatest))
}

fn slice(room: &mut Room, format: FloatFormat, rows: &[Row]) -> Result<Items<FloatRow>, OutOfMemory>
    ensures shown { IfOk result (λ shown. ShowsRows format rows.now shown) }
    ensures memory { Rises (IsErr result) room.old room.new }
{
    let mut shown = room.told(Vec::with_capacity(room.alloc(), rows.len()))?;
    for row in rows {
        room.told_back(shown.push(FloatRow {
            row: *row,
            word: FloatWord::of(format, row.value),
        }))?;
    }
    Ok(Items::new(shown))
}

fn stats(
    room: &mut Room,
    format: FloatFormat,
    traces: &[FloatTraceStatistics],
) -> Result<Items<ShownTrace>, OutOfMemory>
    ensures shown { IfOk result (λ shown. ShowsTraces format traces.now shown) }
    ensures memory { Rises (IsErr result) room.old room.new }
{
    let mut shown = room.told(Vec::with_capacity(room.alloc(), traces.len()))?;
    for trace in traces {
        room.told_back(shown.push(ShownTrace {
            trace: *trace,
            statistics: stat(format, trace.statistics),
        }))?;
    }
    Ok(Items::new(shown))
}
