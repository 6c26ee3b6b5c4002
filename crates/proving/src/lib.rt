// What a house owes to whoever lends it words: a circuit worked out, and the honest prover's answers along given coins.
// Here the coins lie side by side; the prover still takes one after the other.
#![tactic(auto)]

pub mod house;
pub mod proving;
pub mod speaking;
