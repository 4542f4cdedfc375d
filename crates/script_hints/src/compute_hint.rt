// What may be meant by a refused computation.
use crate::number_hint::number_hint;
use crate::words::Words;

// Where the source stands in `compute P Q FIELD SOURCE [OP OPERAND] ..`: behind it an operator and
// an operand follow each other.
const SOURCE: usize = 4;
// Where the operator of a ninth operation stands.
const NINTH: usize = SOURCE + 17;

/// Of a computation with too few or too many words.
pub(crate) fn operations_hint(words: &Words) -> Option<&'static str> {
    if !words.at(NINTH + 1).is_empty() {
        Some("at most 8 operations: go on in a second line")
    } else if SOURCE + 1 < words.count() {
        Some("behind SOURCE each OP has an OPERAND")
    } else {
        None
    }
}

/// Of a computation with a word behind FIELD that has to be a number or an operator: of the first.
pub(crate) fn computed_number_hint(words: &Words) -> Option<&'static str> {
    for k in SOURCE..words.count() {
        if let Some(text) = word_hint(words.at(k), is_operator_place(k)) {
            return Some(text);
        }
    }
    None
}

/// Of a name in a computation that is no field.
pub(crate) fn joined_hint(words: &Words) -> Option<&'static str> {
    for word in words.as_slice() {
        if is_joined(word) {
            return Some(JOINED);
        }
    }
    None
}

const JOINED: &str = "an operator is a word of its own, as in cdp / 1000";

fn is_operator_place(k: usize) -> bool {
    SOURCE < k && (k - SOURCE) % 2 == 1
}

fn word_hint(word: &[u8], is_operator: bool) -> Option<&'static str> {
    if is_operator {
        if is_operator_word(word) {
            None
        } else {
            Some("OP is one of + - * / %")
        }
    } else if begins_a_number(word) {
        operand_hint(word)
    } else {
        None
    }
}

// Of an operand that has to be a number.
fn operand_hint(word: &[u8]) -> Option<&'static str> {
    if is_operator_word(word) {
        return Some("behind each OP stands a NUMBER or a FIELD");
    }
    if is_joined(word) {
        return Some(JOINED);
    }
    match number_hint(word) {
        Some(text) => Some(text),
        None if is_number(word) => None,
        None => Some("what begins with a digit, - or + is to be a NUMBER"),
    }
}

fn is_operator_word(word: &[u8]) -> bool {
    matches!(word, b"+" | b"-" | b"*" | b"/" | b"%")
}

fn begins_a_number(word: &[u8]) -> bool {
    match word.first() {
        Some(byte) => byte.is_ascii_digit() || *byte == b'-' || *byte == b'+',
        None => false,
    }
}

fn is_number(word: &[u8]) -> bool {
    let digits = word.strip_prefix(b"-").unwrap_or(word);
    !digits.is_empty() && digits.iter().all(|byte| byte.is_ascii_digit())
}

// Whether an operator stands in the word behind its first letter.
fn is_joined(word: &[u8]) -> bool {
    match word {
        [] => false,
        [_, rest @ ..] => rest.iter().any(|byte| is_operator_letter(*byte)),
    }
}

fn is_operator_letter(byte: u8) -> bool {
    matches!(byte, b'+' | b'-' | b'*' | b'/' | b'%')
}
