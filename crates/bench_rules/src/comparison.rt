ghost use Rattle.std.specs.Prelude.{◌≡◌};
ghost use Rattle.bench_rules.specs.SideValues.{admits as admits_order, compares as compares_of};

use crate::side_value::{SideValue, order_of};
use std::cmp::Ordering;

/// How a condition compares two values.
#[derive(Clone, Copy, Debug, PartialEq, Eq)]
pub enum Comparison {
    Equal,
    Unequal,
    Less,
    AtMost,
    Greater,
    AtLeast,
}

/// Whether the two values compare so; what has no order compares no way. Takes no memory.
pub fn compares(comparison: Comparison, left: SideValue, right: SideValue) -> bool
    ensures { result ≡ compares_of comparison left right }
{
    match order_of(left, right) {
        Some(order) => admits(comparison, order),
        None => false,
    }
}

/// Whether the comparison holds of what stands so. Takes no memory.
pub(crate) fn admits(comparison: Comparison, order: Ordering) -> bool
    ensures { result ≡ admits_order comparison order }
{
    match comparison {
        Comparison::Equal => order.is_eq(),
        Comparison::Unequal => order.is_ne(),
        Comparison::Less => order.is_lt(),
        Comparison::AtMost => order.is_le(),
        Comparison::Greater => order.is_gt(),
        Comparison::AtLeast => order.is_ge(),
    }
}
