// The coins of a layer's variables so far, at the start of an array that has room for all of them.
// It is copied with the verifier or the prover that holds it.
ghost use Rattle.std.specs.Prelude.{◌≡◌, ◌≤◌, true, length};
ghost use Rattle.arithmetic.specs.Numbers.{modulo, all_reduced};
ghost use Rattle.circuits.specs.Words.{modulus};

use crate::cut::MOST_VARIABLES;

mod drawing;

// An array and no vector: the calls have no heap, and the struct is copied with its holder.
#[derive(Clone, Copy)]
pub struct Drawn {
    words: [u32; MOST_VARIABLES],
    len: usize,
    ghost room: { length words ≡ 32 },
    ghost within: { len ≤ 32 },
    ghost reduced: { all_reduced (modulo modulus) words ≡ true },
}
