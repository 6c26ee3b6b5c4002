// Examples of what the definitions of circuits give, each a theorem of specs/Theorems.antt.
// There is nothing to work out: the promise itself is what counts.
ghost use Rattle.circuits.specs.Theorems.{ProductIsCircuit, ProductOfThreeAndFive, TooFarIsRefused};

pub fn examples_stand()
    ensures circuit { ProductIsCircuit }
    ensures outputs { ProductOfThreeAndFive }
    ensures refused { TooFarIsRefused }
{}
