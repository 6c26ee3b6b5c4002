// One gate: the sum or the product of two values of the layer below it, and how it is read from words.
// specs/Views.antt maps these types to those of specs/Circuit.antt.
ghost use Rattle.circuits.specs.Reading.{Reads};

#[derive(Clone, Copy, PartialEq, Eq, Debug)]
pub enum Kind {
    Sum,
    Product,
}

// A word that stands for no kind.
#[derive(Clone, Copy, PartialEq, Eq, Debug)]
pub struct UnknownKind;

impl TryFrom<u32> for Kind {
    type Error = UnknownKind;

    ghost try_from_gives = { Reads };

    fn try_from(word: u32) -> Result<Kind, UnknownKind> {
        match word {
            0 => Ok(Kind::Sum),
            1 => Ok(Kind::Product),
            _ => Err(UnknownKind),
        }
    }
}

// left and right are places in the layer below, within one copy
#[derive(Clone, Copy, PartialEq, Eq, Debug)]
pub struct Gate {
    pub kind: Kind,
    pub left: usize,
    pub right: usize,
}
