ghost use Rattle.std.specs.Prelude.{◌≡◌};
ghost use Rattle.line_problems.specs.LineProblems.{no_survey_of};

use grid_live::Line;

/// A file whose traces, two or more, all have one inline and one crossline: it has no survey
/// numbers, or they stand elsewhere.
#[derive(Debug, Clone, Copy, PartialEq, Eq)]
pub struct NoSurvey {
    pub traces: u64,
    pub inline: i32,
    pub crossline: i32,
}

/// The one inline and the one crossline of all traces, where these are two or more. Takes no
/// memory.
pub fn no_survey(inlines: &[Line], crosslines: &[Line]) -> Option<NoSurvey>
    ensures { result ≡ no_survey_of inlines.now crosslines.now }
{
    let ([inline], [crossline]) = (inlines, crosslines) else {
        return None;
    };
    if inline.traces < 2 {
        return None;
    }
    Some(NoSurvey {
        traces: inline.traces,
        inline: inline.number,
        crossline: crossline.number,
    })
}
