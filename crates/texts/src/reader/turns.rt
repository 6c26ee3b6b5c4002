// What a reader does: it begins at the front of a text, and gives one number after another.
// Each number stands before those of what is left.
ghost use Rattle.std.specs.Prelude.{◌≡◌, length};
ghost use Rattle.std.specs.Iterator.{at_most};
ghost use Rattle.texts.specs.Answers.{Next, Gives};
ghost use Rattle.texts.specs.Left.{left};
ghost use Rattle.texts.specs.Theorems.{OneReading, LineByLine};

use crate::error::TextError;
use crate::reader::Reader;
use crate::words::{read_word, word_start};

impl<'a> Reader<'a> {
    pub fn new(text: &'a [u8]) -> Reader<'a>
        ensures whole { left result ≡ text.now }
        ensures one_reading { OneReading }
        ensures line_by_line { LineByLine }
    {
        Reader { text, at: 0 }
    }

    // The next number, or none where the text ends. A reader that refuses stays at its place.
    pub fn next_number(&mut self) -> Result<Option<u32>, TextError>
        ensures { Next (left self.old) result (left self.new) }
    {
        let rest = &self.text[self.at..];
        let start = word_start(rest);
        if start == rest.len() {
            self.at = self.text.len();
            return Ok(None);
        }
        let (number, len) = read_word(&rest[start..])?;
        self.at += start + len;
        Ok(Some(number))
    }
}

// One number after another, up to the end of the text or the first word that is no number.
impl Iterator for Reader<'_> {
    type Item = Result<u32, TextError>;

    ghost next_gives = { λ before item after. Gives (left before) item (left after) };

    ghost remaining = { λ reader. at_most (length (left reader)) };

    fn next(&mut self) -> Option<Result<u32, TextError>> {
        match self.next_number() {
            Ok(number) => number.map(Ok),
            Err(error) => {
                self.at = self.text.len();
                Some(Err(error))
            }
        }
    }
}
