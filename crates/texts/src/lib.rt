// Numbers as text: read from bytes, and written as lines of decimal numbers.
// specs/Texts.antt says which numbers a text holds, and which text numbers are written as.
#![tactic(auto)]

pub mod digits;
pub mod error;
pub mod gap;
pub mod line;
pub mod lines;
pub mod reader;
#[cfg(test)]
mod tests;
pub mod whole;
mod words;
pub mod written;
