// All that the programs do, as functions and small machines on values: a line in, a line out.
// Each main only moves lines.
#![tactic(auto)]

pub mod answering;
pub mod dice;
pub mod drawn;
pub mod given;
pub mod hearing;
pub mod held;
pub mod number;
pub mod promises;
pub mod room;
pub mod scanner;
