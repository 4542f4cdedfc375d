// What is wrong with a word that has to be a number.

/// What people write for a number that is none.
pub(crate) fn number_hint(word: &[u8]) -> Option<&'static str> {
    let digits = word.strip_prefix(b"-").unwrap_or(word);
    if word.starts_with(b"+") {
        return Some("a number has no + in front");
    }
    if digits.starts_with(b"0x") || digits.starts_with(b"0X") {
        return Some("numbers are decimal");
    }
    if !digits.first().is_some_and(|byte| byte.is_ascii_digit()) {
        return None;
    }
    match digits.iter().find(|byte| !byte.is_ascii_digit()) {
        Some(b'.' | b',' | b'e' | b'E') => Some(
            "whole numbers are digits alone, and samples of floats decimals, such as -1.5e3",
        ),
        _ => None,
    }
}
