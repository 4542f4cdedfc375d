// Words that may be meant.

/// What a word is to the words that are there.
#[derive(Clone, Copy, Debug, PartialEq, Eq)]
pub(crate) enum Near {
    /// This one, in other letters, capital or small.
    Letters(&'static str),
    /// One letter more, fewer or other than this one, or two neighbours changed over.
    Typed(&'static str),
    /// None of them.
    None,
}

/// Which of the names is meant by the word: one in other letters, else the first that is near.
pub(crate) fn nearest_of(word: &[u8], names: &[&'static str]) -> Near {
    let mut found = Near::None;
    for name in names {
        if word.eq_ignore_ascii_case(name.as_bytes()) {
            return Near::Letters(*name);
        }
        if found == Near::None && is_near(word, name.as_bytes()) {
            found = Near::Typed(*name);
        }
    }
    found
}

// Whether two words of other letters are one step apart and share two letters at their ends.
fn is_near(word: &[u8], name: &[u8]) -> bool {
    let (front, word, name) = without_front(word, name);
    let (back, word, name) = without_back(word, name);
    if front.saturating_add(back) < 2 {
        return false;
    }
    match (word, name) {
        ([], [_]) | ([_], []) | ([_], [_]) => true,
        ([a, b], [c, d]) => a.eq_ignore_ascii_case(d) && b.eq_ignore_ascii_case(c),
        _ => false,
    }
}

// How many letters both have in front, and what stands behind them.
fn without_front<'a, 'b>(word: &'a [u8], name: &'b [u8]) -> (usize, &'a [u8], &'b [u8]) {
    let mut rest = (word, name);
    let mut shared = 0usize;
    for _ in 0..word.len() {
        match rest {
            ([a, word @ ..], [b, name @ ..]) if a.eq_ignore_ascii_case(b) => {
                rest = (word, name);
                shared = shared.saturating_add(1);
            }
            _ => break,
        }
    }
    (shared, rest.0, rest.1)
}

// How many letters both have at the end, and what stands in front of them.
fn without_back<'a, 'b>(word: &'a [u8], name: &'b [u8]) -> (usize, &'a [u8], &'b [u8]) {
    let mut rest = (word, name);
    let mut shared = 0usize;
    for _ in 0..word.len() {
        match rest {
            ([word @ .., a], [name @ .., b]) if a.eq_ignore_ascii_case(b) => {
                rest = (word, name);
                shared = shared.saturating_add(1);
            }
            _ => break,
        }
    }
    (shared, rest.0, rest.1)
}
