// Lines in parts, cut where neighbours are far from one another.
ghost use Rattle.std.specs.Prelude.{◌≡◌, ◌-ℤ◌, ◌*ℤ◌, pos, int_le};
ghost use Rattle.std.specs.Option.{option_map_or};
ghost use Rattle.line_problems.specs.NearLines.{larger as larger_of};

use grid_live::Line;

// Lines that are more than so many steps from one another are in two parts.
const NEAR_STEPS: u32 = 10;

// Lines that follow one another: the first and the last number, and how many traces they have.
#[derive(Clone, Copy)]
pub(crate) struct Part {
    pub first: i32,
    pub last: i32,
    pub traces: u128,
}

impl Part {
    ghost use Rattle.std.specs.Prelude.{◌≡◌, ◌<◌, ◌^◌};

    // One line alone.
    fn of(line: &Line) -> Part
        ensures part { result ≡ record {
          first = line.now.number;
          last = line.now.number;
          traces = line.now.traces;
        } }
        ensures few { result.traces < 2 ^ 64 }
    {
        Part {
            first: line.number,
            last: line.number,
            traces: u128::from(line.traces),
        }
    }
}

// The parts of the lines from one on: the first part, the largest of those behind it, and how many
// traces those have.
#[derive(Clone, Copy)]
pub(crate) struct Parts {
    pub first: Part,
    pub largest_behind: Option<Part>,
    pub traces_behind: u128,
}

impl Parts {
    ghost use Rattle.std.specs.Prelude.{◌≡◌, ◌+◌, ◌<◌, ◌^◌, List, [], MatchOption};
    ghost use Rattle.line_problems.specs.NearLines.{line_before, parts_of};
    ghost use Rattle.line_problems.specs.ShownParts.{ShowsParts};
    ghost use Rattle.line_problems.specs.declared.parts.Part.{Part as PartOf};

    // The parts with one more line in front.
    fn after(&self, line: &Line, step: i64) -> Parts
        requires { self.now.first.traces + self.now.traces_behind + 2 ^ 64 < 2 ^ 128 }
        ensures shows { (ps : List PartOf) →
            ShowsParts self.now ps → ShowsParts result (line_before step line.now ps) }
        ensures few { result.first.traces + result.traces_behind <
            self.now.first.traces + self.now.traces_behind + 2 ^ 64 }
    {
        if is_near(line, &self.first, step) {
            return Parts {
                first: Part {
                    first: line.number,
                    last: self.first.last,
                    traces: u128::from(line.traces) + self.first.traces,
                },
                largest_behind: self.largest_behind,
                traces_behind: self.traces_behind,
            };
        }
        Parts {
            first: Part::of(line),
            largest_behind: Some(largest(self.first, self.largest_behind)),
            traces_behind: self.first.traces + self.traces_behind,
        }
    }

    // The parts of these lines, where there are any.
    pub(crate) fn of(lines: &[Line], step: i64) -> Option<Parts>
        ensures shows { MatchOption result (lines.now ≡ [])
            (λ w. ShowsParts w (parts_of step lines.now)) }
        ensures room { MatchOption result (lines.now ≡ [])
            (λ w. w.first.traces + w.traces_behind < 2 ^ 128) }
    {
        let (last, others) = lines.split_last()?;
        let mut parts = Parts {
            first: Part::of(last),
            largest_behind: None,
            traces_behind: 0,
        };
        for i in (0..others.len()).rev() {
            parts = parts.after(&others[i], step);
        }
        Some(parts)
    }
}

// Whether a line in front of a part is no more than ten steps away from it.
fn is_near(line: &Line, part: &Part, step: i64) -> bool
    ensures { result ≡
        int_le (part.now.first -ℤ line.now.number) (pos NEAR_STEPS *ℤ step) }
{
    let distance = i128::from(part.first) - i128::from(line.number);
    distance <= i128::from(NEAR_STEPS) * i128::from(step)
}

// The larger of the part and the one behind it, where there is one; the first where they are equal.
pub(crate) fn largest(part: Part, behind: Option<Part>) -> Part
    ensures { result ≡ option_map_or (larger_of part) behind part }
{
    match behind {
        Some(other) => {
            if part.traces < other.traces {
                other
            } else {
                part
            }
        }
        None => part,
    }
}
