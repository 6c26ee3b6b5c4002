// What is proved of tables as polynomials.
// Each function's contract is what it names; there is nothing to compute.
ghost use Rattle.tables.specs.Theorems.{ValueAtCorner, SumOverPlaces, LinearInEachVariable, LinearInTable, FewRoots, ExampleModulo31};

// The multilinear extension has the table's numbers at the corners, is the sum over places of eq times number, and is
// linear in each variable and in the table.
pub fn extension_stands()
    ensures corner { ValueAtCorner }
    ensures places { SumOverPlaces }
    ensures variables { LinearInEachVariable }
    ensures table { LinearInTable }
{}

// Two different tables of k variables agree at no more than k p-ths of all points.
pub fn few_roots_stand()
    ensures { FewRoots }
{}

// Modulo 31 the extension of 1, 2, 3, 4 is 18 at (5, 7).
pub fn example_stands()
    ensures { ExampleModulo31 }
{}
