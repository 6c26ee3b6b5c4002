// A claim about a layer: a point among the copies, one or two shares, and the total.
// Points stand at the start of arrays that have room for any point; specs/Meaning.antt says what a claim means.
ghost use Rattle.std.specs.Prelude.{◌≡◌, ◌<◌, true};
ghost use Rattle.arithmetic.specs.Numbers.{modulo, all_reduced};
ghost use Rattle.circuits.specs.Words.{modulus};

use crate::cut::MOST_COORDINATES;

pub mod views;

// A factor and a point among the layer's gates.
#[derive(Clone, Copy)]
pub struct Share {
    pub factor: u32,
    pub point: [u32; MOST_COORDINATES],
    ghost factor_reduced: { factor < modulus },
    ghost point_reduced: { all_reduced (modulo modulus) point ≡ true },
}

// What is asked of the layer: one share, or two.
#[derive(Clone, Copy)]
pub struct Shares {
    pub first: Share,
    pub second: Option<Share>,
}

#[derive(Clone, Copy)]
pub struct Claim {
    pub copy: [u32; MOST_COORDINATES],
    pub shares: Shares,
    pub total: u32,
    ghost copy_reduced: { all_reduced (modulo modulus) copy ≡ true },
    ghost total_reduced: { total < modulus },
}
