// A layer's wiring in one pass over its gates: what its sums add up to, and what its products do.
// Each gate adds its term on the side of its kind.

#[derive(Clone, Copy)]
pub struct Wiring {
    pub sums: u32,
    pub products: u32,
}

pub mod gather;
pub mod layer;
pub mod weights;
