use line_problems::LineSpan;
use position_differences::Difference;

/// The grid of a survey in one line: its inlines and crosslines that are not far from the others,
/// how far a cell stands from the one an inline, or a crossline, before it, how many cells there
/// are, and how many a full grid would have.
#[derive(Debug, Clone, Copy, PartialEq, Eq)]
pub struct SurveyGrid {
    pub inline: LineSpan,
    pub crossline: LineSpan,
    pub along_inline: Option<Difference>,
    pub along_crossline: Option<Difference>,
    pub cells: u64,
    pub full: u128,
}
