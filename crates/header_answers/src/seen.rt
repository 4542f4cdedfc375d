ghost use Rattle.std.specs.Prelude.{◌≡◌};
ghost use Rattle.header_answers.specs.Seen.{seen_with, shown as shown_of_seen, widened as widened_by};

use bench_rules::Extremes;

/// What was seen of the numbers of one field.
#[derive(Clone, Copy, Debug, PartialEq, Eq)]
pub struct Seen {
    /// `None` of no numbers.
    pub extremes: Option<Extremes>,
    /// Whether one of the numbers is not 0.
    pub some: bool,
}

impl Seen {
    /// Sees one number more, where there is one.
    pub fn see(&mut self, number: Option<i128>)
        ensures { self.new ≡ seen_with self.old number }
    {
        let Some(number) = number else {
            return;
        };
        self.some = self.some || number != 0;
        match &mut self.extremes {
            Some(seen) => widen(seen, number),
            None => {
                self.extremes = Some(Extremes {
                    least: number,
                    greatest: number,
                    first: number,
                    last: number,
                });
            }
        }
    }

    /// The extremes of numbers that are not all 0.
    pub fn shown(self) -> Option<Extremes>
        ensures { result ≡ shown_of_seen self }
    {
        if self.some { self.extremes } else { None }
    }
}

// Takes one number more into the extremes. Most numbers are neither the least nor the greatest, and
// then the last alone is written.
fn widen(seen: &mut Extremes, number: i128)
    ensures { seen.new ≡ widened_by seen.old number }
{
    if number < seen.least {
        seen.least = number;
    }
    if number > seen.greatest {
        seen.greatest = number;
    }
    seen.last = number;
}
