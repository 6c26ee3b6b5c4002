// What the verifier says in the end: believed, or where it stopped believing. Each shows itself as the words that stand for it.
// Layers and variables are counted from 0; at the inputs the layer is the number of layers.
ghost use Rattle.std.specs.Prelude.{Some};
ghost use Rattle.verdicts.specs.Shown.{place_text, verdict_text};

use std::fmt;

// The part of a layer's argument at which something was not as it has to be.
#[derive(Clone, Copy, Drop, PartialEq, Eq, Debug)]
pub enum Place {
    Variable(usize),
    Values,
    Inputs,
}

impl fmt::Display for Place {
    ghost output = { λ x. Some (place_text x) };

    fn fmt<W: fmt::Write>(&self, f: &mut fmt::Formatter<W>) -> fmt::Result {
        match self {
            Place::Variable(i) => write!(f, "variable {i}"),
            Place::Values => write!(f, "values"),
            Place::Inputs => write!(f, "inputs"),
        }
    }
}

// No `Result`, which would be no plainer: both cases are what the verifier says, and neither is a failure.
#[derive(Clone, Copy, Drop, PartialEq, Eq, Debug)]
pub enum Verdict {
    Believed,
    Stopped(usize, Place),
}

impl fmt::Display for Verdict {
    ghost output = { λ x. Some (verdict_text x) };

    fn fmt<W: fmt::Write>(&self, f: &mut fmt::Formatter<W>) -> fmt::Result {
        match self {
            Verdict::Believed => write!(f, "believed"),
            Verdict::Stopped(layer, place) => write!(f, "not believed, layer {layer}, {place}"),
        }
    }
}
