// What is proved of cubics given by four values, for every whole modulus above 3.
// Each function's contract is the theorem that it names; there is nothing to compute.
ghost use Rattle.arithmetic.specs.Theorems.{ThroughItsValues, ExactForCubics, AgreeAtMostThrice, WholeMersenne31, WholeExamples, ExampleModulo31};

// The polynomial takes its four values at 0, 1, 2 and 3, and is every cubic's own; two different ones agree at most at
// three places.
pub fn cubics_stand()
    ensures through { ThroughItsValues }
    ensures exact { ExactForCubics }
    ensures thrice { AgreeAtMostThrice }
{}

// 2^31 - 1 is whole, so that all that is promised for whole moduli holds of it.
pub fn mersenne_stands()
    ensures { WholeMersenne31 }
{}

// The same; and so are the moduli of examples.
pub fn moduli_stand()
    ensures program { WholeMersenne31 }
    ensures examples { WholeExamples }
{}

// Modulo 31 the polynomial through 1, 4, 9, 16 has the value 25 at 4 and 0 at 30.
pub fn example_stands()
    ensures { ExampleModulo31 }
{}
