// One round's answer of the honest prover: the four values of a sum over the corners that are left, in one pass over tables.
// A place of the lower half and its partner in the upper half give a line in the round's variable.
#![tactic(auto)]

pub mod copies;
pub mod fours;
pub mod rounds;
