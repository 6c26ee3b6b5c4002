// What stands between words: a place in a line before its first word, later in it, or in a comment.
// Each byte leads from one such place to another, or begins a word.
ghost use Rattle.texts.specs.Gaps.{Past};

use crate::digits::{HASH, LINE_END, is_space};

#[derive(Clone, Copy)]
pub enum Gap {
    // first in a line
    First,
    Between,
    Comment,
}

impl Gap {
    // Where the byte after this one stands, or none where this one begins a word.
    pub fn past(self, byte: u8) -> Option<Gap>
        ensures { Past self byte result }
    {
        match self {
            _ if byte == LINE_END => Some(Gap::First),
            Gap::Comment => Some(Gap::Comment),
            // before the #, as by far the most bytes between words are spaces
            _ if is_space(byte) => Some(Gap::Between),
            Gap::First if byte == HASH => Some(Gap::Comment),
            _ => None,
        }
    }
}
