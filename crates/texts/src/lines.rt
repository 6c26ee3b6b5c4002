// Many numbers written in lines of sixteen, each with its line end.
// They show themselves, line by line.
ghost use Rattle.std.specs.Prelude.{Some};
ghost use Rattle.texts.specs.Texts.{lines_of};

use crate::line::Line;
use std::fmt;

// How many numbers stand in a line.
const PER_LINE: usize = 16;

#[derive(Clone, Copy)]
pub struct Lines<'a> {
    pub numbers: &'a [u32],
}

impl fmt::Display for Lines<'_> {
    ghost output = { λ x. Some (lines_of 16 x.numbers.now) };

    fn fmt<W: fmt::Write>(&self, f: &mut fmt::Formatter<W>) -> fmt::Result {
        for numbers in self.numbers.chunks(PER_LINE) {
            let line = Line { numbers };
            writeln!(f, "{line}")?;
        }
        Ok(())
    }
}
