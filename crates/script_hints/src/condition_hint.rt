// What may be meant by refused conditions.
use crate::words::Words;

/// Where the word `where` of a command stands that may have conditions.
pub(crate) fn place_of_where(words: &Words) -> Option<usize> {
    if !may_have_conditions(words.at(0)) {
        return None;
    }
    for k in 1..words.count() {
        if words.at(k) == b"where".as_slice() {
            return Some(k);
        }
    }
    None
}

// Whether conditions may stand behind a command of this word.
fn may_have_conditions(command: &[u8]) -> bool {
    matches!(
        command,
        b"table"
            | b"find"
            | b"extremes"
            | b"set"
            | b"renumber"
            | b"compute"
            | b"delete"
            | b"count"
            | b"stats"
            | b"samples"
            | b"swap"
            | b"fill"
    )
}

/// The words in front of the conditions: all of them where there are none.
pub(crate) fn in_front_of_conditions<'a>(words: &Words<'a>) -> Words<'a> {
    words.in_front_of(place_of_where(words).unwrap_or(words.count()))
}

/// Of a line with conditions, and of a `count` that lacks them.
pub(crate) fn condition_hint(words: &Words) -> Option<&'static str> {
    match place_of_where(words) {
        Some(place) => match traces_hint(words, place) {
            Some(text) => Some(text),
            None => words_hint(words, place),
        },
        None if words.at(0) == b"count".as_slice() && words.count() == 3 => Some(
            "only traces that meet conditions are counted so: count P Q where A OP B",
        ),
        None => None,
    }
}

// Of conditions behind words that name no range of traces.
fn traces_hint(words: &Words, place: usize) -> Option<&'static str> {
    match words.at(0) {
        b"count" if place == 1 => Some("of which traces? count all where A OP B"),
        b"set" if place == 4 => Some(ONE_TRACE),
        b"delete" if place == 2 => Some(ONE_TRACE),
        _ => None,
    }
}

const ONE_TRACE: &str = "conditions choose among the traces of a range: P Q, or all";

// Of what stands behind `where`.
fn words_hint(words: &Words, place: usize) -> Option<&'static str> {
    if place.saturating_add(1) == words.count() {
        return Some("behind where stands a condition, as in where cdp = 100");
    }
    sign_hint(words)
}

/// Of the first word behind `where` that is no sign or no `and`, but like one.
pub(crate) fn sign_hint(words: &Words) -> Option<&'static str> {
    let place = place_of_where(words)?;
    for k in place..words.count() {
        if let Some(text) = word_hint(words.at(k)) {
            return Some(text);
        }
    }
    None
}

fn word_hint(word: &[u8]) -> Option<&'static str> {
    match word {
        b"==" => Some("equal is ="),
        b"<>" | b"=!" => Some("unequal is !="),
        b"=<" => Some("at most is <="),
        b"=>" => Some("at least is >="),
        b"&&" => Some("between two conditions stands and"),
        b"or" | b"||" => Some("all conditions are to be met: and stands between two"),
        _ if is_joined(word) => Some("blanks stand round a sign, as in where cdp = 100"),
        _ => None,
    }
}

// Whether a sign is joined to what it compares, as in `cdp=100`: each sign alone has at most two
// bytes.
fn is_joined(word: &[u8]) -> bool {
    word.len() > 2 && word.iter().any(|byte| matches!(*byte, b'=' | b'<' | b'>'))
}
