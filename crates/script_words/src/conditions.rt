// The conditions of a command, and where they stand in its line.
ghost use Rattle.std.specs.Prelude.{◌≡◌, is_some, Some, None, IfSome, IfNone, if◌then◌else◌, IsErrOf};
ghost use Rattle.room.specs.Refusals.{Rises};
ghost use Rattle.script_words.specs.declared.line_fault.LineFault.TheVariants.{OutOfMemory as no_memory, Number as no_number};
ghost use Rattle.script_words.specs.Words.{words_of};
ghost use Rattle.script_words.specs.Conditions.{comparison_of, condition_of, decimal_of, is_extreme as is_an_extreme, is_to_be_decimal, side_of, are_joined as all_joined, has_conditions as has_all, conditions_of, begins_conditions as begin_conditions, in_front, behind_where};
ghost use Rattle.script_words.specs.Commands.{IsConditionRead, IsListRead, IsSideRead};

use crate::compute_command::{is_operand, operand};
use crate::line_fault::LineFault;
use crate::numbers::{is_number_like, number};
use crate::words::{Words, number_of_words};
use bench_rules::{Comparison, Condition, Items, Side};
use exact_amounts::Amount;
use float_codes::FloatFormat;
use room::Room;

// The comparison that a word is the sign of.
fn comparison(word: &str) -> Option<Comparison>
    ensures { result ≡ comparison_of word.now }
{
    match word {
        "=" => Some(Comparison::Equal),
        "!=" => Some(Comparison::Unequal),
        "<" => Some(Comparison::Less),
        "<=" => Some(Comparison::AtMost),
        ">" => Some(Comparison::Greater),
        ">=" => Some(Comparison::AtLeast),
        _ => None,
    }
}

// Whether the text begins with `where`, with a sign as the second word behind it.
fn begins_conditions(text: &str) -> bool
    ensures { result ≡ begin_conditions (words_of text.now) }
{
    match Words::new(text).next_three() {
        Some((word, _, sign)) => word == "where" && comparison(sign).is_some(),
        None => false,
    }
}

/// What stands in front of the conditions of a line and behind their `where`; `None` where there
/// are none.
pub(crate) fn split_where(text: &str) -> Option<(&str, &str)>
    ensures none { IfNone result (behind_where (words_of text.now) ≡ None) }
    ensures front { IfSome result (λ t. words_of t.0.now ≡ in_front (words_of text.now)) }
    ensures back { IfSome result (λ t. behind_where (words_of text.now)
        ≡ Some (words_of t.1.now)) }
{
    let mut words = Words::new(text);
    'words: while !begins_conditions(words.rest()) {
        words.next()?;
    }
    let rest = words.rest();
    let (front, _) = text.split_at(text.len() - rest.len());
    words.next()?;
    Some((front, words.rest()))
}

// Whether the words of the text are three, or three and `and` and so on.
fn are_joined(text: &str) -> bool
    ensures { result ≡ all_joined (words_of text.now) }
{
    let mut words = Words::new(text);
    'words: while let Some(_) = words.next_three() {
        match words.next() {
            None => return true,
            Some(word) => {
                if word != "and" {
                    return false;
                }
            }
        }
    }
    false
}

/// Whether the words of the text are as many as those of 1 to 8 conditions, with `and` between
/// them.
pub(crate) fn has_conditions(text: &str) -> bool
    ensures { result ≡ has_all (words_of text.now) }
{
    number_of_words(text, 32) < 32 && are_joined(text)
}

// Whether the word is the name of the least or of the greatest sample.
fn is_extreme(word: &str) -> bool
    ensures { result ≡ is_an_extreme word.now }
{
    word == "sample_least" || word == "sample_greatest"
}

// The decimal that a word is, which is no infinity.
fn decimal(word: &str) -> Option<Amount>
    ensures { result ≡ decimal_of word.now }
{
    if word == "-inf" {
        return None;
    }
    Amount::of_decimal(word.as_bytes())
}

// Whether the word is read as a decimal: beside such a name in a file of floats, where it begins as
// a number and is none of 128 bits.
fn is_decimal_like(floats: Option<FloatFormat>, word: &str, other: &str) -> bool
    ensures { result ≡ is_to_be_decimal floats word.now other.now }
{
    floats.is_some() && is_extreme(other) && is_number_like(word) && number(word).is_none()
}

// Whether the word is a side of a condition, beside the other one.
fn is_side(floats: Option<FloatFormat>, word: &str, other: &str) -> bool
    ensures { result ≡ is_some (side_of floats word.now other.now) }
{
    if is_decimal_like(floats, word, other) {
        decimal(word).is_some()
    } else {
        is_operand(word)
    }
}

// The side of a condition that the word is, beside the other one. Refused: S03, or E11 for a name.
fn side(
    room: &mut Room,
    floats: Option<FloatFormat>,
    word: &str,
    other: &str,
) -> Result<Side, LineFault>
    ensures read { IsSideRead (side_of floats word.now other.now) result }
    ensures memory { Rises (IsErrOf result LineFault.OutOfMemory) room.old room.new }
{
    if is_decimal_like(floats, word, other) {
        match decimal(word) {
            Some(amount) => Ok(Side::Decimal(amount)),
            None => Err(LineFault::Number),
        }
    } else {
        Ok(Side::Operand(operand(room, word)?))
    }
}

// Whether the three words are a condition.
fn is_condition(floats: Option<FloatFormat>, left: &str, sign: &str, right: &str) -> bool
    ensures { result ≡ is_some (condition_of floats left.now sign.now right.now) }
{
    if !is_side(floats, left, right) {
        return false;
    }
    if comparison(sign).is_none() {
        return false;
    }
    is_side(floats, right, left)
}

// The condition that the three words are. Takes memory. S03 where a word is no side or no sign,
// else E11.
fn condition(
    room: &mut Room,
    floats: Option<FloatFormat>,
    left: &str,
    sign: &str,
    right: &str,
) -> Result<Condition, LineFault>
    ensures read { IsConditionRead (condition_of floats left.now sign.now right.now) result }
    ensures memory { Rises (IsErrOf result LineFault.OutOfMemory) room.old room.new }
{
    let comparison = comparison(sign).ok_or(LineFault::Number)?;
    // S03 of any word comes before E11.
    if !is_side(floats, right, left) {
        return Err(LineFault::Number);
    }
    let left_side = side(room, floats, left, right)?;
    let right_side = side(room, floats, right, left)?;
    Ok(Condition {
        left: left_side,
        comparison,
        right: right_side,
    })
}

// Whether the words of the text are conditions, with a word between each two of them.
fn are_conditions(floats: Option<FloatFormat>, text: &str) -> bool
    ensures { result ≡ is_some (conditions_of floats (words_of text.now)) }
{
    let mut words = Words::new(text);
    'words: while let Some((left, sign, right)) = words.next_three() {
        if !is_condition(floats, left, sign, right) {
            return false;
        }
        match words.next() {
            None => return true,
            Some(_) => {}
        }
    }
    false
}

/// What is told where memory ran out in front of these conditions: S03 comes before E11.
pub(crate) fn fault_without_memory(floats: Option<FloatFormat>, text: &str) -> LineFault
    ensures { result ≡
        if is_some (conditions_of floats (words_of text.now)) then no_memory else no_number }
{
    if are_conditions(floats, text) {
        LineFault::OutOfMemory
    } else {
        LineFault::Number
    }
}

/// The conditions that the words of the text are, with a word between each two of them. Takes
/// memory. S03 where one is none, else E11.
pub(crate) fn conditions(
    room: &mut Room,
    floats: Option<FloatFormat>,
    text: &str,
) -> Result<Items<Condition>, LineFault>
    ensures read { IsListRead (conditions_of floats (words_of text.now)) result }
    ensures memory { Rises (IsErrOf result LineFault.OutOfMemory) room.old room.new }
{
    // S03 of any word comes before E11.
    if !are_conditions(floats, text) {
        return Err(LineFault::Number);
    }
    let mut conditions = Vec::new(room.alloc());
    let mut words = Words::new(text);
    'words: while let Some((left, sign, right)) = words.next_three() {
        let condition = condition(room, floats, left, sign, right)?;
        let Ok(()) = room.told_back(conditions.push(condition)) else {
            return Err(LineFault::OutOfMemory);
        };
        match words.next() {
            None => return Ok(Items::new(conditions)),
            Some(_) => {}
        }
    }
    Err(LineFault::Number)
}
