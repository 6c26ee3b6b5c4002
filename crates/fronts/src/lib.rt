// What a part of a layer begins with, in tables gathered from the layer's gates.
// Each takes one pass over a table or over the gates.
#![tactic(auto)]

pub mod fronts;
pub mod gather;
