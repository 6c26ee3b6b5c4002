// A reader of numbers for bytes that come one by one, as those of DICE may.
// It knows a number by the byte that ends it, and so never waits for a byte beyond that one.
ghost use Rattle.std.specs.Prelude.{◌≡◌};
ghost use Rattle.programs.specs.Scanning.{Pushed, at_end};

use crate::drawn::{NoNumber, Word};
use texts::digits::{append_digit, is_digit};
use texts::gap::Gap;

// Where the next byte stands: in no word, or in a word, after digits that make this number.
#[derive(Clone, Copy)]
pub enum Spot {
    Gap(Gap),
    Word(u32),
}

impl Spot {
    // Takes one more byte: where the byte after it stands, and what is known by it, which may be nothing yet.
    pub fn push(self, byte: u8) -> (Spot, Word)
        ensures { Pushed self byte result.0 result.1 }
    {
        // After a word's digits a byte is read as between words, with their number before it.
        let (gap, before) = match self {
            Spot::Gap(gap) => (gap, None),
            Spot::Word(number) => (Gap::Between, Some(number)),
        };
        match gap.past(byte) {
            Some(after) => (Spot::Gap(after), Ok(before)),
            None if is_digit(byte) => (
                Spot::Word(append_digit(before.unwrap_or(0), byte - b'0')),
                Ok(None),
            ),
            None => (Spot::Gap(gap), Err(NoNumber)),
        }
    }

    // What the end of the text makes known: the number whose last digit was the last byte.
    pub fn end(self) -> Option<u32>
        ensures { result ≡ at_end self }
    {
        match self {
            Spot::Gap(_) => None,
            Spot::Word(number) => Some(number),
        }
    }
}
