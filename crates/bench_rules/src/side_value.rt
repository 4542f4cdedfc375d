// What a side of a condition says of one trace, and how two of these compare.
ghost use Rattle.std.specs.Prelude.{◌≡◌};
ghost use Rattle.exact_amounts.specs.Places.{level as level_of, stands as stands_of};
ghost use Rattle.bench_rules.specs.SideValues.{order_of as order_of_values, order_with_rank};

use exact_amounts::Amount;
use std::cmp::Ordering;

/// What a side of a condition says of a trace.
#[derive(Clone, Copy, Debug, PartialEq, Eq)]
pub enum SideValue {
    Whole(i128),
    /// The rank of a float (`float_codes`).
    Rank(i128),
    Decimal(Amount),
    /// Nothing is said: the trace has no sample, or none that is a number.
    Missing,
}

/// How the two compare, exactly, 0 and -0 being the same number; `None` where one is missing, and
/// where a decimal is beside anything but a float. Takes no memory.
pub(crate) fn order_of(left: SideValue, right: SideValue) -> Option<Ordering>
    ensures { result ≡ order_of_values left right }
{
    match left {
        SideValue::Whole(number) => match right {
            SideValue::Whole(other) => Some(number.cmp(&other)),
            SideValue::Rank(rank) => Some(stands(Amount::of_whole(number), rank)),
            SideValue::Decimal(_) | SideValue::Missing => None,
        },
        SideValue::Rank(rank) => with_rank(rank, right),
        SideValue::Decimal(amount) => match right {
            SideValue::Rank(rank) => Some(stands(amount, rank)),
            SideValue::Whole(_) | SideValue::Decimal(_) | SideValue::Missing => None,
        },
        SideValue::Missing => None,
    }
}

// How the value of the rank compares.
fn with_rank(rank: i128, right: SideValue) -> Option<Ordering>
    ensures { result ≡ order_with_rank rank right }
{
    match right {
        SideValue::Whole(number) => Some(stands(Amount::of_whole(number), rank).reverse()),
        SideValue::Rank(other) => Some(level(rank).cmp(&level(other))),
        SideValue::Decimal(amount) => Some(stands(amount, rank).reverse()),
        SideValue::Missing => None,
    }
}

// How the amount compares with the value of the rank: as `Amount::compare`, whose ranks are
// narrower than those that records have.
fn stands(amount: Amount, rank: i128) -> Ordering
    ensures { result ≡ stands_of amount rank }
{
    match level(i128::from(amount.rank)).cmp(&level(rank)) {
        Ordering::Less => Ordering::Less,
        Ordering::Equal => amount.side,
        Ordering::Greater => Ordering::Greater,
    }
}

// The rank, where that of -0 is taken as that of 0.
fn level(rank: i128) -> i128
    ensures { result ≡ level_of rank }
{
    if rank < 0 { rank + 1 } else { rank }
}
