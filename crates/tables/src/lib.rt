// Tables of numbers in memory: one variable fixed, the value at a point, and eq at all corners.
// All of it is done in memory that the caller lends.
#![tactic(auto)]

pub mod eq;
pub mod halving;
pub mod promises;
#[cfg(test)]
mod tests;
