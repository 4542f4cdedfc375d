ghost use Rattle.std.specs.Prelude.{◌≡◌, ◌∷◌, IfOk, IsErr};
ghost use Rattle.std.specs.List.{list_all};
ghost use Rattle.std.specs.List.Sorted.{IsSorted};
ghost use Rattle.std.specs.Ordering.{int_cmp, int_eq};
ghost use Rattle.room.specs.Refusals.{Rises};
ghost use Rattle.common_numbers.specs.Commonest.{IsCommonest, commonest as commonest_of};

use room::{OutOfMemory, Room};

// A number with how often it stands in a list.
#[derive(Clone, Copy)]
struct Run {
    number: i64,
    times: usize,
}

/// The number that stands most often in the list, and of several the least; nothing of an empty
/// list. Where all are one number it takes no memory, else 8 bytes a number, for a copy that it
/// sorts; it is refused only where those are.
pub fn commonest(room: &mut Room, numbers: &[i64]) -> Result<Option<i64>, OutOfMemory>
    ensures number { IfOk result (λ c. c ≡ commonest_of numbers.now) }
    ensures memory { Rises (IsErr result) room.old room.new }
{
    let Some((first, others)) = numbers.split_first() else {
        return Ok(None);
    };
    if are_all(*first, others) {
        return Ok(Some(*first));
    }
    commonest_by_runs(room, numbers)
}

// Whether each of the numbers is this one.
fn are_all(number: i64, numbers: &[i64]) -> bool
    ensures { result ≡ list_all (λ m. int_eq m number) numbers.now }
{
    numbers.iter().all(|other| *other == number)
}

// The number that stands most often, whatever the numbers are.
fn commonest_by_runs(room: &mut Room, numbers: &[i64]) -> Result<Option<i64>, OutOfMemory>
    ensures number { IfOk result (λ c. c ≡ commonest_of numbers.now) }
    ensures memory { Rises (IsErr result) room.old room.new }
{
    let mut rising = Vec::new(room.alloc());
    room.told(rising.extend_from_slice(numbers))?;
    rising.sort_unstable();
    let Some((first, others)) = rising.split_first() else {
        return Ok(None);
    };
    Ok(Some(longest_run(first, others)))
}

// The number whose run is longest, of several the least, where the numbers rise.
fn longest_run(first: &i64, others: &[i64]) -> i64
    requires { IsSorted int_cmp (first.now ∷ others.now) }
    ensures { IsCommonest (first.now ∷ others.now) result }
{
    let mut last = Run {
        number: *first,
        times: 1,
    };
    let mut longest = last;
    for number in others {
        if *number == last.number {
            last.times += 1;
        } else {
            last = Run {
                number: *number,
                times: 1,
            };
        }
        if longest.times < last.times {
            longest = last;
        }
    }
    longest.number
}
