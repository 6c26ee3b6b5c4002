// The three parts of a layer, over its copies' variables, those of x and those of y: how each begins, and its turns.
// The tables of a part give the layer's sum over the corners that are left; each coin halves them.
#![tactic(auto)]

pub mod quarters;
pub mod starts;
pub mod turns;
