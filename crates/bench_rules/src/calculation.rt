// One step of a computation, exact on whole numbers of 128 bits.
ghost use Rattle.std.specs.Prelude.{◌≡◌, ◌&&◌, pos, false, FitsSigned};
ghost use Rattle.std.specs.Int.{w128};
ghost use Rattle.std.specs.Ordering.{int_eq};
ghost use Rattle.std.specs.Option.{SomeIff};
ghost use Rattle.bench_rules.specs.Computed.{applied, divides as is_division, quotient as quotient_of, stepped};
ghost use Rattle.bench_rules.specs.declared.operator.Operator.TheVariants.{Modulo};

use crate::operator::Operator;
use crate::refusal::Refusal;

/// What the operator makes of two numbers in trace p: E13 for a division by 0, E04 for a number
/// that 128 bits do not hold. Takes no memory.
pub fn calculate(p: u32, operator: Operator, a: i128, b: i128) -> Result<i128, Refusal>
    ensures { result ≡ stepped p operator a b }
{
    if divides(operator) && b == 0 {
        return Err(Refusal::ZeroDivisor(p));
    }
    match exact(operator, a, b) {
        Some(number) => Ok(number),
        None => Err(Refusal::DoesNotFit),
    }
}

// Whether the operator divides.
fn divides(operator: Operator) -> bool
    ensures { result ≡ is_division operator }
{
    match operator {
        Operator::Plus | Operator::Minus | Operator::Times => false,
        Operator::Over | Operator::Modulo => true,
    }
}

// What the operator makes of two numbers; `None` where 128 bits do not hold it.
fn exact(operator: Operator, a: i128, b: i128) -> Option<i128>
    requires { (is_division operator && int_eq b (pos 0)) ≡ false }
    ensures { SomeIff result (FitsSigned w128 (applied operator a b)) (applied operator a b) }
{
    match operator {
        Operator::Plus => a.checked_add(b),
        Operator::Minus => a.checked_sub(b),
        Operator::Times => a.checked_mul(b),
        Operator::Over => quotient(a, b),
        Operator::Modulo => Some(modulo(a, b)),
    }
}

// a / b, rounded towards the lesser number; `None` where 128 bits do not hold it, for the least
// number over -1.
fn quotient(a: i128, b: i128) -> Option<i128>
    requires { int_eq b (pos 0) ≡ false }
    ensures { SomeIff result (FitsSigned w128 (quotient_of a b)) (quotient_of a b) }
{
    if b > 0 {
        return Some(a.div_euclid(b));
    }
    // The sizes of all numbers fit 128 bits without a sign.
    if a > 0 {
        let whole = (a.unsigned_abs() - 1) / b.unsigned_abs();
        return Some(-1 - whole as i128);
    }
    let whole = a.unsigned_abs() / b.unsigned_abs();
    if whole < 1 << 127 {
        Some(whole as i128)
    } else {
        None
    }
}

// a - b * (a / b), which always fits: it is 0 or has the sign of b, and is nearer to 0.
fn modulo(a: i128, b: i128) -> i128
    requires { int_eq b (pos 0) ≡ false }
    ensures { result ≡ applied Modulo a b }
{
    if b > 0 {
        return a.rem_euclid(b);
    }
    if a > 0 {
        let rest = (a.unsigned_abs() - 1) % b.unsigned_abs();
        return b + (rest as i128 + 1);
    }
    let rest = a.unsigned_abs() % b.unsigned_abs();
    -(rest as i128)
}
