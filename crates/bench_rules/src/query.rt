use crate::chosen::Chosen;
use crate::chosen_query::ChosenQuery;
use crate::field::Field;
use crate::items::Items;
use range_stats::Quantity;

/// What is asked of a volume. Traces count from 1, samples of a trace from 0. Block 0 is the
/// textual header, the extended textual headers are blocks 1 and up, and lines of a block count
/// from 1.
#[derive(Drop)]
pub enum Query {
    /// The number of traces.
    Count,
    /// The file's head, its number of traces and its length.
    Info,
    /// `Get(p, field)`: a header field of trace p. Refused, in this order: E01, E02, E03.
    Get(u32, Field),
    /// `GetBin(field)`: a field of the binary header, as its bytes stand. Refused, in this order:
    /// E02, E03.
    GetBin(Field),
    /// `Line(b, q)`: line q of block b, as it is shown. Refused: E03.
    Line(u32, u32),
    /// `Lines(b)`: the 40 lines of block b, as they are shown. Refused: E03.
    Lines(u32),
    /// `Code(b)`: the code of block b. Refused: E03.
    Code(u32),
    /// The stanzas of the extended textual headers and of the data trailer records.
    Stanzas,
    /// The bound names with their places.
    Fields,
    /// `Sample(p, k)`: sample k of trace p. Refused, in this order: E01, E12, E05.
    Sample(u32, u32),
    /// `Geometry(p)`: where trace p lies. Refused: E01.
    Geometry(u32),
    /// `Stat(p)`: the statistics of the samples of trace p. Refused, in this order: E01, E12.
    Stat(u32),
    /// `Fold(i, c)`: how many traces have this inline and crossline, any two numbers.
    Fold(i128, i128),
    /// The cells that have traces.
    Grid,
    /// The inlines that have traces.
    Inlines,
    /// The crosslines that have traces.
    Crosslines,
    /// How many cells have each fold.
    Histogram,
    /// The least and the greatest value of this kind.
    Range(Quantity),
    /// The statistics of all samples. Refused: E12.
    Totals,
    /// `Slice(k)`: sample k of each trace that has it. Refused: E12.
    Slice(u32),
    /// What the headers contradict each other in, or the traces each other.
    Faults,
    /// All that is wrong or doubtful, grouped: the faults, and what the numbers of the traces make
    /// suspicious. Looks at each trace once.
    Problems,
    /// The grid of the survey in one line: its inlines and crosslines that are not far from the
    /// others, how far neighbouring cells stand apart, and how many cells there are.
    Survey,
    /// `Table(a, b, fields)`: these header fields of each of traces a to b. Refused, in this order:
    /// E01 for a, E01 for b, E02 where a field has no place, E03 where one of the traces lacks a
    /// place.
    Table(u32, u32, Items<Field>),
    /// `Find(a, b, field, low, high)`: those of traces a to b whose field has a number from low to
    /// high; low above high finds none. Refused as `Table` is.
    Find(u32, u32, Field, i128, i128),
    /// `Header(p)`: all named header fields of trace p that it has. Refused: E01.
    Header(u32),
    /// `Extremes(a, b)`: of each named header field whose numbers in traces a to b are not all 0,
    /// the least, the greatest, the first and the last. Refused, in this order: E01 for a, E01 for
    /// b.
    Extremes(u32, u32),
    /// A query for the traces that are chosen. Refused, in this order: E01 for the first trace of
    /// the range, E01 for its last, E02 where a field of the query or of a condition has no place,
    /// E12 where a condition asks for values of samples and these have none, E03 where a trace of
    /// the range lacks the place of a condition, then what the query refuses of the chosen traces.
    /// The list of these takes memory, so that E11 may come in the place of any refusal but E01.
    OfChosen(Chosen, ChosenQuery),
}
