// The words of a line.

// No hint looks at a word behind so many.
const MOST: usize = 48;

/// The first 48 words of a line, with `1 last` for an `all` behind the command, and whether one of
/// its words begins with `#`.
#[derive(Drop)]
pub(crate) struct Words<'a> {
    words: [&'a [u8]; MOST],
    length: usize,
    has_note: bool,
}

impl<'a> Words<'a> {
    pub(crate) fn new(line: &'a [u8]) -> Words<'a> {
        let mut words: [&'a [u8]; MOST] = [b""; MOST];
        let mut length = 0;
        let mut has_note = false;
        for word in line.split(|byte| *byte == b' ' || *byte == b'\t') {
            has_note |= word.starts_with(b"#");
            if !word.is_empty() && length < MOST {
                words[length] = word;
                length += 1;
            }
            if length == 2 && words[1] == b"all".as_slice() {
                words[1] = b"1";
                words[2] = b"last";
                length = 3;
            }
        }
        Words {
            words,
            length,
            has_note,
        }
    }

    /// The word of this number, from 0: no bytes where there is none.
    pub(crate) fn at(&self, number: usize) -> &'a [u8] {
        match self.words.get(number) {
            Some(word) => *word,
            None => b"",
        }
    }

    /// How many of the words there are.
    pub(crate) fn count(&self) -> usize {
        self.length
    }

    /// The words; no bytes stand for those that are missing.
    pub(crate) fn as_slice(&self) -> &[&'a [u8]] {
        self.words.as_slice()
    }

    /// The words in front of this number.
    pub(crate) fn in_front_of(&self, number: usize) -> Words<'a> {
        let mut words: [&'a [u8]; MOST] = [b""; MOST];
        let length = number.min(self.length).min(MOST);
        for k in 0..length {
            words[k] = self.at(k);
        }
        Words {
            words,
            length,
            has_note: self.has_note,
        }
    }

    /// Whether one of the words begins with `#`.
    pub(crate) fn has_note(&self) -> bool {
        self.has_note
    }
}
