// All numbers of a text at once: into a vector, or into words that are lent.
// A line from a pipe is a text too: one that begins with # has no numbers.
ghost use Rattle.std.specs.Prelude.{◌≡◌, Some, MatchResult};
ghost use Rattle.texts.specs.Answers.{Unread, ReadInto};
ghost use Rattle.texts.specs.Texts.{numbers_of};

use crate::error::TextError;
use crate::reader::Reader;
use std::alloc::Global;

// The numbers of a text, in their order.
pub fn read_numbers(heap: Global, text: &[u8]) -> Result<Vec<u32>, TextError>
    ensures { MatchResult result (λ v. numbers_of text.now ≡ Some v.items) (Unread text.now) }
{
    let mut numbers = Vec::new(heap);
    for number in Reader::new(text) {
        numbers.push(number?)?;
    }
    Ok(numbers)
}

// Puts the numbers of a text into the first of the words that are lent, and says how many there are.
// Where there is no room for them all, the text is still read to its end: a word that is no number comes first.
// Where it refuses, the words hold what fitted, and nothing is promised of them.
pub fn read_into(text: &[u8], room: &mut [u32]) -> Result<usize, TextError>
    ensures { ReadInto text.now room.old result room.new }
{
    // what comes after the last place that is lent is counted too
    let mut count = 0;
    for number in Reader::new(text) {
        let number = number?;
        if count < room.len() {
            room[count] = number;
        }
        count += 1;
    }
    if count > room.len() {
        Err(TextError::TooMany)
    } else {
        Ok(count)
    }
}
