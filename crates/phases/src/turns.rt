// One turn of a part of a layer: the answer for the first variable that is left, and a coin for it.
// Each is one pass over the tables, which a coin then halves.
ghost use Rattle.std.specs.Prelude.{◌≡◌, ℕ, ◌+◌, ◌-◌, ◌*◌, ◌^◌, ◌<◌, ◌≤◌, T, List, [], ◌∷◌, ◌++◌, length, take};
ghost use Rattle.arithmetic.specs.Numbers.{modulo, all_reduced};
ghost use Rattle.argument.specs.Claims.{Claim};
ghost use Rattle.argument.specs.Sumcheck.{Prover, respond};
ghost use Rattle.circuits.specs.Views.{layer_seen, size_seen, places_below};
ghost use Rattle.tables.specs.Multilinear.{sum_corners};
ghost use Rattle.phases.specs.Standing.{Rooms, CopyTables, ProductTables, Fixed, Fronts, term_of};

use arithmetic::modular::Modular;
use circuits::{LayerView, power};
use rounds::copies::sum_copies;
use rounds::rounds::sum_round;
use tables::halving::fix_first;

// The four values for the first of `left` copies' variables.
pub fn copy_answer<M: Modular>(
    layer: LayerView,
    left: u32,
    v: &[u32],
    w: &[u32],
    h: &[u32],
) -> [u32; 4]
    requires left { (0 < left) × (left + places_below layer ≤ 16) }
    requires rooms { Rooms v.now w.now h.now }
    requires values { T (all_reduced (modulo M.modulus) (take (2 ^ left * 2 ^ places_below layer) v.now)) }
    requires weights { T (all_reduced (modulo M.modulus) (take (2 ^ size_seen layer) w.now)) }
    requires eq { T (all_reduced (modulo M.modulus) (take (2 ^ left) h.now)) }
    ensures answer { (k : Claim ℕ) (X c : List ℕ) → CopyTables M.modulus (layer_seen layer.entry) (places_below layer.entry) k X c left v.now w.now h.now → (next : List ℕ → Prover ℕ) → result ≡ respond (modulo M.modulus) left (λ z. sum_corners (modulo M.modulus) (places_below layer.entry) (λ x. sum_corners (modulo M.modulus) (places_below layer.entry) (λ y. term_of M.modulus (layer_seen layer.entry) (places_below layer.entry) k X (c ++ z) x y))) next [] }
    ensures reduced { T (all_reduced (modulo M.modulus) result) }
{
    let weights = &w[0..power(layer.size())];
    let eq = &h[0..power(left)];
    let values = &v[0..power(left + layer.size_below())];
    sum_copies::<M>(layer, power(layer.size_below()), weights, eq, values)
}

// Fixes the first of `left` copies' variables in the tables of values and of eq.
pub fn copy_coin<M: Modular>(layer: LayerView, left: u32, coin: u32, v: &mut [u32], h: &mut [u32])
    requires left { (0 < left) × (left + places_below layer ≤ 16) }
    requires rooms { (length v.old ≡ 65536) × (length h.old ≡ 65536) }
    requires coin { coin < M.modulus }
    requires values { T (all_reduced (modulo M.modulus) (take (2 ^ left * 2 ^ places_below layer) v.old)) }
    requires eq { T (all_reduced (modulo M.modulus) (take (2 ^ left) h.old)) }
    ensures { (k : Claim ℕ) (X c w : List ℕ) → CopyTables M.modulus (layer_seen layer.entry) (places_below layer.entry) k X c left v.old w h.old → CopyTables M.modulus (layer_seen layer.entry) (places_below layer.entry) k X (c ++ (coin ∷ [])) (left - 1) v.new w h.new }
{
    fix_first::<M>(&mut v[0..power(left + layer.size_below())], coin);
    fix_first::<M>(&mut h[0..power(left)], coin);
}

// The four values for the first of `left` variables of a sum V H + J.
// Not inlined: in a caller that answers two numbers or four, the compiler adds up only two of the four sums at a time.
#[inline(never)]
pub fn product_answer<M: Modular>(left: u32, v: &[u32], h: &[u32], j: &[u32]) -> [u32; 4]
    requires left { (0 < left) × (left ≤ 16) }
    requires rooms { Rooms v.now h.now j.now }
    requires fronts { Fronts M.modulus left v.now h.now j.now }
    ensures answer { (F : List ℕ → ℕ) (G : List ℕ → ℕ) → ProductTables M.modulus F G left v.now h.now j.now → (next : List ℕ → Prover ℕ) → result ≡ respond (modulo M.modulus) left G next [] }
    ensures reduced { T (all_reduced (modulo M.modulus) result) }
{
    let count = power(left);
    sum_round::<M>(&v[0..count], &h[0..count], &j[0..count])
}

// Fixes the first of `left` variables in the three tables.
pub fn product_coin<M: Modular>(left: u32, coin: u32, v: &mut [u32], h: &mut [u32], j: &mut [u32])
    requires left { (0 < left) × (left ≤ 16) }
    requires rooms { Rooms v.old h.old j.old }
    requires coin { coin < M.modulus }
    requires fronts { Fronts M.modulus left v.old h.old j.old }
    ensures v { Fixed M.modulus (left - 1) coin v.old v.new }
    ensures h { Fixed M.modulus (left - 1) coin h.old h.new }
    ensures j { Fixed M.modulus (left - 1) coin j.old j.new }
{
    let count = power(left);
    fix_first::<M>(&mut v[0..count], coin);
    fix_first::<M>(&mut h[0..count], coin);
    fix_first::<M>(&mut j[0..count], coin);
}
