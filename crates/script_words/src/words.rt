// The words of a line.
ghost use Rattle.std.specs.Prelude.{◌≡◌, ◌<◌, ◌∷◌, [], length, min, not, IfSome, IfNone, position};
ghost use Rattle.std.specs.List.{position_or_len};
ghost use Rattle.script_words.specs.Ranges.{spelled, is_all as are_all};
ghost use Rattle.script_words.specs.Words.{is_gap, words_of, behind_word, without_one_gap};

use std::marker::Model;

/// What is still to be read of a line, seen as its characters.
#[derive(Drop)]
pub(crate) struct Words<'a> {
    rest: &'a str,
}

impl<'a> Model for Words<'a> {
    ghost use Rattle.std.specs.Prelude.{ℕ, List};

    ghost Value = { List ℕ };

    ghost view = { λ w. w.rest.now };
}

impl<'a> Words<'a> {
    pub(crate) fn new(line: &'a str) -> Words<'a>
        ensures { result ≡ line.now }
    {
        Words { rest: line }
    }

    /// The next word, which is read by that.
    pub(crate) fn next(&mut self) -> Option<&'a str>
        ensures none { IfNone result (words_of self.old ≡ []) }
        ensures some { IfSome result (λ word. words_of self.old ≡ word.now ∷ words_of self.new) }
        ensures rest { IfSome result (λ _. self.new ≡ behind_word self.old) }
    {
        let first = first_character(self.rest.as_bytes())?;
        let (_, text) = self.rest.split_at(first);
        let (word, rest) = text.split_at(word_length(text.as_bytes()));
        self.rest = rest;
        Some(word)
    }

    /// The two words of a range of traces, which are read by that: `all` stands for `1 last`.
    pub(crate) fn range(&mut self) -> Option<(&'a str, &'a str)>
        ensures none { IfNone result (length (spelled (words_of self.old)) < 2) }
        ensures some { IfSome result (λ t. spelled (words_of self.old)
            ≡ t.0.now ∷ t.1.now ∷ words_of self.new) }
    {
        let first = self.next()?;
        if first == "all" {
            return Some(("1", "last"));
        }
        let last = self.next()?;
        Some((first, last))
    }

    /// The next three words, which are read by that.
    pub(crate) fn next_three(&mut self) -> Option<(&'a str, &'a str, &'a str)>
        ensures none { IfNone result (length (words_of self.old) < 3) }
        ensures some { IfSome result (λ t. words_of self.old
            ≡ t.0.now ∷ t.1.now ∷ t.2.now ∷ words_of self.new) }
    {
        Some((self.next()?, self.next()?, self.next()?))
    }

    /// What is still to be read.
    pub(crate) fn rest(&self) -> &'a str
        ensures { result.now ≡ self.now }
    {
        self.rest
    }

    /// What stands behind the one blank or tab that comes first.
    pub(crate) fn text_behind(&self) -> &'a str
        ensures { result.now ≡ without_one_gap self.now }
    {
        match self.rest.as_bytes().first() {
            Some(byte) if is_gap_byte(*byte) => {
                let (_, text) = self.rest.split_at(1);
                text
            }
            _ => self.rest,
        }
    }
}

fn is_gap_byte(byte: u8) -> bool
    ensures { result ≡ is_gap byte }
{
    byte == b' ' || byte == b'\t'
}

// The place of the first byte that is no blank and no tab.
fn first_character(text: &[u8]) -> Option<usize>
    ensures { result ≡ position (λ c. not (is_gap c)) text.now }
{
    text.iter().position(|byte| !is_gap_byte(*byte))
}

// The place of the first blank or tab.
fn first_gap(text: &[u8]) -> Option<usize>
    ensures { result ≡ position is_gap text.now }
{
    text.iter().position(|byte| is_gap_byte(*byte))
}

// How many characters stand in front of the first blank or tab.
fn word_length(text: &[u8]) -> usize
    ensures { result ≡ position_or_len is_gap text.now }
{
    first_gap(text).unwrap_or(text.len())
}

/// Whether the words of the text begin with `all`.
pub(crate) fn is_all(text: &str) -> bool
    ensures { result ≡ are_all (words_of text.now) }
{
    match Words::new(text).next() {
        Some(word) => word == "all",
        None => false,
    }
}

/// The number of words of the text, up to `most`.
pub(crate) fn number_of_words(text: &str, most: usize) -> usize
    ensures { result ≡ min most (length (words_of text.now)) }
{
    let mut words = Words::new(text);
    for count in 0..most {
        if words.next().is_none() {
            return count;
        }
    }
    most
}
