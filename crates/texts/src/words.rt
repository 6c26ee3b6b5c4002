// Where words begin and end in a text, and the number that a word writes.
// What is left of a text is pinned by the machine that goes over it byte by byte.
ghost use Rattle.std.specs.Prelude.{◌≡◌, ◌<◌, ◌≤◌, false, length, drop, None, MatchResult, slice_index};
ghost use Rattle.texts.specs.Machine.{read_from, first, between, comment, with};
ghost use Rattle.texts.specs.Texts.{is_gap};
ghost use Rattle.texts.specs.declared.error.TextError.TheVariants.{NoNumber};

use crate::digits::{LINE_END, append_digit, is_digit, is_gap};
use crate::error::TextError;
use crate::gap::Gap;

// The place of the line end that ends the comment in which a text begins, or the end of the text.
fn comment_end(text: &[u8]) -> usize
    ensures within { result ≤ length text.now }
    ensures same { read_from between (drop result text.now) ≡ read_from comment text.now }
{
    for (at, &byte) in text.iter().enumerate() {
        if byte == LINE_END {
            return at;
        }
    }
    text.len()
}

// The place where the next word begins, past gaps and comments, or the end of the text.
pub fn word_start(text: &[u8]) -> usize
    ensures within { result ≤ length text.now }
    ensures begins { result < length text.now → is_gap (slice_index text.now result) ≡ false }
    ensures same { read_from between (drop result text.now) ≡ read_from first text.now }
{
    let mut gap = Gap::First;
    let mut at = 0;
    while at < text.len() {
        match gap.past(text[at]) {
            None => return at,
            // A comment's bytes are looked at for its end alone: by `past` a long one takes half as many instructions again.
            Some(Gap::Comment) => {
                at += 1 + comment_end(&text[at + 1..]);
                gap = Gap::Between;
            }
            Some(after) => {
                at += 1;
                gap = after;
            }
        }
    }
    at
}

// The number that a text's first word writes, and the place where the word ends.
// Not inlined: in a large function the jump out of the loop is a long one, and where it falls badly each digit takes longer.
#[inline(never)]
pub fn read_word(text: &[u8]) -> Result<(u32, usize), TextError>
    requires some { 0 < length text.now }
    requires begins { is_gap (slice_index text.now 0) ≡ false }
    ensures { MatchResult result
        (λ p. (0 < p.1) × (p.1 ≤ length text.now) × (read_from between text.now ≡ with p.0 (read_from first (drop p.1 text.now))))
        (λ e. (e ≡ NoNumber) × (read_from between text.now ≡ None)) }
{
    let mut number = 0;
    for (at, &byte) in text.iter().enumerate() {
        // before a gap, as by far the most bytes of a long word are digits
        if is_digit(byte) {
            number = append_digit(number, byte - b'0');
        } else if is_gap(byte) {
            return Ok((number, at));
        } else {
            return Err(TextError::NoNumber);
        }
    }
    Ok((number, text.len()))
}
