// What holds of texts, as contracts of calls that do nothing.
ghost use Rattle.script_text.specs.FullLines.{AnswersAreFullLines, FloatAnswersAreFullLines};

/// What is printed for an answer whose texts and names have no line feed are lines, each with its
/// end, and none of them is empty.
pub fn answers_are_full_lines()
    ensures { AnswersAreFullLines }
{}

/// What is printed for an answer about samples that are floats are lines, each with its end, and
/// none of them is empty.
#[tactic(auto, using(crate::proofs::FloatLineLemmas::float_answers_are_full_lines))]
pub fn float_answers_are_full_lines()
    ensures { FloatAnswersAreFullLines }
{}
