// Numbers as a text of their own, in one line or in lines of sixteen.
// What is written is read again as the same numbers.
ghost use Rattle.std.specs.Prelude.{◌≡◌, IfOk, string_bytes};
ghost use Rattle.texts.specs.Texts.{line_of, lines_of};
ghost use Rattle.texts.specs.Theorems.{RoundTrip};

use crate::line::Line;
use crate::lines::Lines;
use std::alloc::{AllocError, Global};

// The numbers in a line, without a line end.
pub fn write_line(heap: Global, numbers: &[u32]) -> Result<String, AllocError>
    ensures text { IfOk result (λ t. string_bytes t ≡ line_of numbers.now) }
    ensures round_trip { RoundTrip }
{
    let line = Line { numbers };
    format!(in heap; "{line}")
}

// The numbers in lines of sixteen, each line with its end.
pub fn write_lines(heap: Global, numbers: &[u32]) -> Result<String, AllocError>
    ensures text { IfOk result (λ t. string_bytes t ≡ lines_of 16 numbers.now) }
    ensures round_trip { RoundTrip }
{
    let lines = Lines { numbers };
    format!(in heap; "{lines}")
}
