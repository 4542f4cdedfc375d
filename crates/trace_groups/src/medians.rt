ghost use Rattle.std.specs.Prelude.{◌≡◌, ◌∷◌, ◌++◌, IfSome, option_map};
ghost use Rattle.std.specs.List.Sorted.{IsPermutation};
ghost use Rattle.trace_groups.specs.Medians.{lower_median as lower_median_of};

// Of the numbers in rising order the one at place (n - 1) / 2, from 0, between those that it then
// stands behind and those in front of which it stands; nothing of no numbers. Moves the numbers
// about, and takes no memory.
pub(crate) fn around_median(numbers: &mut [u64]) -> Option<(&[u64], u64, &[u64])>
    ensures median { option_map (λ parts. parts.1) result ≡ lower_median_of numbers.old }
    ensures same { IfSome result (λ parts.
        IsPermutation numbers.old (parts.0.now ++ parts.1 ∷ parts.2.now)) }
{
    if numbers.is_empty() {
        return None;
    }
    let place = (numbers.len() - 1) / 2;
    let (front, median, back) = numbers.select_nth_unstable(place);
    Some((front, *median, back))
}
