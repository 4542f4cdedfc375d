use crate::extremes::Extremes;
use crate::float_statistics::FloatStatistics;
use crate::info::Info;
use crate::items::Items;
use crate::location::Location;
use crate::problem_line::ProblemLine;
use crate::row::Row;
use crate::section::Section;
use crate::table::Table;
use crate::text::Text;
use crate::trace_statistics::{FloatTraceStatistics, TraceStatistics};
use cell_positions::SurveyGrid;
use fault_live::Fault;
use field_map::Place;
use grid_live::{Cell, FoldCount};
use key_counts::Ratio;
use text_block::Code;
use trace_record::Statistics;

/// The answer to a query.
#[derive(Drop)]
pub enum Answer {
    /// The number of traces.
    Count(u32),
    Info(Info),
    /// Of `Get` and `GetBin`: the number in the field, unscaled. Of `Sample`: the sample, of
    /// floats its rank (`float_codes`).
    Value(i128),
    /// The shown line, with the blanks at its end.
    Line(Text),
    /// The 40 shown lines of a block, with the blanks at their ends.
    Lines(Items<Text>),
    /// The code of a block.
    Code(Code),
    /// Each stanza's block and name. A data trailer record counts on behind the last block.
    Stanzas(Items<(u64, Text)>),
    /// Each bound name with its place, in the map's order.
    Fields(Items<(Text, Place)>),
    Geometry(Location),
    /// `None` of a trace without samples.
    Stat(Option<Statistics>),
    /// The same where samples are floats.
    FloatStat(Option<FloatStatistics>),
    /// The number of traces.
    Fold(u64),
    /// Each cell with its fold, rising by inline and then by crossline.
    Grid(Items<Cell>),
    /// Each inline with its number of traces, rising.
    Inlines(Items<grid_live::Line>),
    /// Each crossline with its number of traces, rising.
    Crosslines(Items<grid_live::Line>),
    /// Each fold with its number of cells, rising.
    Histogram(Items<FoldCount>),
    /// The least and the greatest value; `None` without traces.
    Range(Option<(Ratio, Ratio)>),
    /// `None` without samples. Of floats the least and the greatest are ranks, and the place of the
    /// sum has how many samples are no number.
    Totals(Option<Statistics>),
    /// A row for each trace that has the sample, of floats with its rank, rising by inline,
    /// crossline and position.
    Slice(Items<Row>),
    /// Those of the headers, then those of each trace in order.
    Faults(Items<Fault>),
    /// The problems in the order of their codes, each with its first runs behind it.
    Problems(Items<ProblemLine>),
    /// `None` without traces.
    Survey(Option<SurveyGrid>),
    /// For each trace its position and its numbers in the fields that were asked.
    Table(Table),
    /// The positions of the traces that were found, rising, each with its number.
    Found(Items<(u32, i128)>),
    /// Each name with its number: the standard's names by their bytes, then the bound ones.
    Header(Items<(Text, i128)>),
    /// Each name with the extremes of its numbers, in the same order.
    Extremes(Items<(Text, Extremes)>),
    /// How many traces were chosen.
    Chosen(u32),
    /// What the samples of each of the traces say, in order.
    Stats(Items<TraceStatistics>),
    /// The same where samples are floats.
    FloatStats(Items<FloatTraceStatistics>),
    /// Which samples are told, of which traces.
    Section(Section),
}
