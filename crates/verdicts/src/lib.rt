// What the verifier says, and what is proved of it: the verifier as a machine on values.
// The machine itself is a definition, specs/Machine.antt; the code that goes its steps is in the crate verifier.
#![tactic(auto)]

pub mod theorems;
pub mod verdict;
