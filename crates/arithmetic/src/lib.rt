// Arithmetic modulo a whole number: the trait of numbers, 2^31 - 1 as one of them, and cubics by four values.
// All code above is generic over the trait.
#![tactic(auto)]

pub mod cubic;
pub mod mersenne;
pub mod modular;
pub mod promises;
