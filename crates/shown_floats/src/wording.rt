// The word of a float.
ghost use Rattle.std.specs.Prelude.{◌≡◌, ◌≤◌, length as length_of};
ghost use Rattle.shown_floats.specs.Shows.{ShowsRank, word_of};

use crate::float_word::FloatWord;
use float_codes::{FloatFormat, value_at};
use ryu::Buffer;

impl FloatWord {
    /// The word of the float of this rank. Takes no memory.
    pub fn of(format: FloatFormat, rank: i128) -> FloatWord
        ensures { ShowsRank format rank (word_of result) }
    {
        let mut buffer = Buffer::new();
        match i64::try_from(rank) {
            Ok(rank) => FloatWord::copied(float_text::text(format, value_at(rank), &mut buffer)),
            Err(_) => FloatWord::copied("nan"),
        }
    }

    fn copied(text: &str) -> FloatWord
        requires { length_of text.now ≤ 25 }
        ensures { word_of result ≡ text.now }
    {
        let text = text.as_bytes();
        let mut bytes = [0; 25];
        bytes[..text.len()].copy_from_slice(text);
        FloatWord {
            bytes,
            length: text.len() as u8,
        }
    }

    pub fn as_slice(&self) -> &[u8]
        ensures bytes { result.now ≡ word_of self.now }
        ensures short { length_of result.now ≤ 25 }
    {
        &self.bytes[..usize::from(self.length)]
    }
}
