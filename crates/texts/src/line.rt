// Numbers written in a line, with one space between them and none at the end.
// A line shows itself, so that it is printed or put into a text like anything else.
ghost use Rattle.std.specs.Prelude.{List, Some};
ghost use Rattle.texts.specs.Texts.{line_of};

use std::fmt;

#[derive(Clone, Copy)]
pub struct Line<'a> {
    pub numbers: &'a [u32],
}

impl fmt::Display for Line<'_> {
    ghost output = { λ x. Some (line_of x.numbers.now) };

    fn fmt<W: fmt::Write>(&self, f: &mut fmt::Formatter<W>) -> fmt::Result {
        let mut gap = "";
        for number in self.numbers {
            write!(f, "{gap}{number}")?;
            gap = " ";
        }
        Ok(())
    }
}
