// One round's answer: the four values of the sum of V H + J over the corners that are left, in one pass over three tables.
// A place of the lower half and its partner in the upper half give a line in the round's variable.
ghost use Rattle.std.specs.Iterator.Adapters.{zip_first, zip_second};
ghost use Rattle.std.specs.Prelude.{◌≡◌, ℕ, suc, ◌/◌, ◌^◌, ◌<◌, T, ◌∷◌, length, take, drop};
ghost use Rattle.std.specs.Slice.Iter.{iter_rest};
ghost use Rattle.arithmetic.specs.Numbers.{modulo, all_reduced};
ghost use Rattle.argument.specs.Sumcheck.{four_values};
ghost use Rattle.tables.specs.InPlace.{on_line};
ghost use Rattle.tables.specs.Multilinear.{sum_corners};
ghost use Rattle.rounds.specs.Phases.{product_sum};

use crate::fours::{add_each, mul_each};
use arithmetic::modular::Modular;
use std::iter::Zip;
use std::slice::Iter;

// The places of a table's lower half, each with its partner in the upper half.
pub(crate) fn halves(table: &[u32]) -> Zip<Iter<'_, u32>, Iter<'_, u32>>
    ensures low { iter_rest (zip_first result) ≡ take (length table.now / 2) table.now }
    ensures high { iter_rest (zip_second result) ≡ drop (length table.now / 2) table.now }
{
    let (low, high) = table.split_at(table.len() / 2);
    low.iter().zip(high)
}

// The values of the line through a at 0 and b at 1. Each after b is a step further, which takes no multiplication.
pub fn line_values<M: Modular>(a: u32, b: u32) -> [u32; 4]
    requires { (a < M.modulus) × (b < M.modulus) }
    ensures values { result ≡ four_values (modulo M.modulus) (λ t. on_line (modulo M.modulus) t a b) }
    ensures below { T (all_reduced (modulo M.modulus) result) }
{
    let step = M::sub(b, a);
    let at2 = M::add(b, step);
    [a, b, at2, M::add(at2, step)]
}

// The round's four values, of tables of 2^(n + 1) numbers: there is one such n at most.
pub fn sum_round<M: Modular>(v: &[u32], h: &[u32], j: &[u32]) -> [u32; 4]
    requires h_length { length h.now ≡ length v.now }
    requires j_length { length j.now ≡ length v.now }
    requires v_reduced { T (all_reduced (modulo M.modulus) v.now) }
    requires h_reduced { T (all_reduced (modulo M.modulus) h.now) }
    requires j_reduced { T (all_reduced (modulo M.modulus) j.now) }
    ensures values { (n : ℕ) → length v.now ≡ 2 ^ suc n → result ≡ four_values (modulo M.modulus) (λ t. sum_corners (modulo M.modulus) n (λ z. product_sum (modulo M.modulus) v.now h.now j.now (t ∷ z))) }
    ensures reduced { T (all_reduced (modulo M.modulus) result) }
{
    let mut sums = [0; 4];
    for (((v0, v1), (h0, h1)), (j0, j1)) in halves(v).zip(halves(h)).zip(halves(j)) {
        let v_values = line_values::<M>(*v0, *v1);
        let h_values = line_values::<M>(*h0, *h1);
        let j_values = line_values::<M>(*j0, *j1);
        let products = mul_each::<M>(v_values, h_values);
        // No proof is made of a call whose array goes straight into a variable that is there.
        let more = add_each::<M>(sums, add_each::<M>(products, j_values));
        sums = more;
    }
    sums
}
