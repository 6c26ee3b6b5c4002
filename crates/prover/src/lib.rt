// The honest prover: a machine that goes step by step in lent memory, an answer out and a coin in.
// Its tables are halved after each coin, so that a layer takes time in proportion to the gates of all copies.
#![tactic(auto)]

pub mod coins;
pub mod due;
pub mod hearing;
pub mod opening;
pub mod prover;
pub mod saying;
pub mod settling;
pub mod shares;
