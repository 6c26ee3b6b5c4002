// What the programs read, and how they end: files of numbers, lines, DICE, and the failures that make the status 1.
// No contract can say what is read; what is made of it is said by the functions of `programs`.
#![tactic(auto)]

pub mod arguments;
pub mod failure;
pub mod files;
pub mod lines;
pub mod stream;
