// One round of the copies' variables: the four values of the sum over the copies that are left, in one pass over rows and
// gates. A copy of the lower half and its partner in the upper half give a line in the round's variable.
ghost use Rattle.std.specs.Prelude.{◌≡◌, ℕ, suc, ◌+◌, ◌*◌, ◌^◌, ◌<◌, ◌≤◌, T, ◌∷◌, length, take, drop};
ghost use Rattle.arithmetic.specs.Numbers.{modulo, all_reduced};
ghost use Rattle.argument.specs.Sumcheck.{four_values};
ghost use Rattle.circuits.specs.Circuit.{combine as combined};
ghost use Rattle.circuits.specs.Views.{gate_meant, kind_meant, gates_seen, size_seen, places_below};
ghost use Rattle.tables.specs.Multilinear.{sum_corners};
ghost use Rattle.rounds.specs.Fours.{FourOf};
ghost use Rattle.rounds.specs.Phases.{copy_sum};
ghost use Rattle.rounds.specs.Rows.{gate_on_line, row_sum};

use crate::fours::{add_each, mul_each, scale_each};
use crate::rounds::{halves, line_values};
use arithmetic::modular::Modular;
use circuits::{Gate, Kind, LayerView};

fn combine_each<M: Modular>(kind: Kind, a: [u32; 4], b: [u32; 4]) -> [u32; 4]
    requires a { T (all_reduced (modulo M.modulus) a) }
    requires b { T (all_reduced (modulo M.modulus) b) }
    ensures values { (f h : ℕ → ℕ) → FourOf M.modulus f a → FourOf M.modulus h b → FourOf M.modulus (λ t. combined (modulo M.modulus) (kind_meant kind) (f t) (h t)) result }
    ensures below { T (all_reduced (modulo M.modulus) result) }
{
    match kind {
        Kind::Sum => add_each::<M>(a, b),
        Kind::Product => mul_each::<M>(a, b),
    }
}

// Adds to the four sums what one gate gives, over the lines between two rows.
fn add_gate<M: Modular>(
    gate: Gate,
    weight: u32,
    low: &[u32],
    high: &[u32],
    sums: [u32; 4],
) -> [u32; 4]
    requires left { (gate.left < length low.now) × (gate.left < length high.now) }
    requires right { (gate.right < length low.now) × (gate.right < length high.now) }
    requires weight { weight < M.modulus }
    requires low { T (all_reduced (modulo M.modulus) low.now) }
    requires high { T (all_reduced (modulo M.modulus) high.now) }
    requires sums { T (all_reduced (modulo M.modulus) sums) }
    ensures values { (f : ℕ → ℕ) → FourOf M.modulus f sums → FourOf M.modulus (λ t. (modulo M.modulus).add ((modulo M.modulus).mul weight (gate_on_line (modulo M.modulus) (gate_meant gate) low.now high.now t)) (f t)) result }
    ensures below { T (all_reduced (modulo M.modulus) result) }
{
    let left = line_values::<M>(low[gate.left], high[gate.left]);
    let right = line_values::<M>(low[gate.right], high[gate.right]);
    let value = combine_each::<M>(gate.kind, left, right);
    add_each::<M>(scale_each::<M>(weight, value), sums)
}

// The sums over all gates, from the last to the first, over the lines between two rows.
fn sum_row<M: Modular>(layer: LayerView, weights: &[u32], low: &[u32], high: &[u32]) -> [u32; 4]
    requires weights { (length weights.now ≡ 2 ^ size_seen layer) × (T (all_reduced (modulo M.modulus) weights.now)) }
    requires low { (length low.now ≡ 2 ^ places_below layer) × (T (all_reduced (modulo M.modulus) low.now)) }
    requires high { (length high.now ≡ 2 ^ places_below layer) × (T (all_reduced (modulo M.modulus) high.now)) }
    ensures values { FourOf M.modulus (row_sum (modulo M.modulus) (gates_seen layer.entry) weights.now low.now high.now) result }
    ensures below { T (all_reduced (modulo M.modulus) result) }
{
    let mut sums = [0; 4];
    for (gate, weight) in layer.gates().rev().zip(weights.iter().rev()) {
        // No proof is made of a call whose array goes straight into a variable that is there.
        let more = add_gate::<M>(gate, *weight, low, high, sums);
        sums = more;
    }
    sums
}

// The round's four values, over tables of eq for 2^(n + 1) copies and of their values: there is one such n at most.
pub fn sum_copies<M: Modular>(
    layer: LayerView,
    places: usize,
    weights: &[u32],
    eq: &[u32],
    values: &[u32],
) -> [u32; 4]
    requires places { places ≡ 2 ^ places_below layer }
    requires weights { (length weights.now ≡ 2 ^ size_seen layer) × (T (all_reduced (modulo M.modulus) weights.now)) }
    requires eq { T (all_reduced (modulo M.modulus) eq.now) }
    requires values { (length values.now ≡ length eq.now * 2 ^ places_below layer) × (T (all_reduced (modulo M.modulus) values.now)) }
    ensures values { (n : ℕ) → length eq.now ≡ 2 ^ suc n → result ≡ four_values (modulo M.modulus) (λ t. sum_corners (modulo M.modulus) n (λ z. copy_sum (modulo M.modulus) (places_below layer.entry) (gates_seen layer.entry) weights.now eq.now values.now (t ∷ z))) }
    ensures reduced { T (all_reduced (modulo M.modulus) result) }
{
    let half = eq.len() / 2;
    let (low_rows, high_rows) = values.split_at(half * places);
    let rows = low_rows
        .chunks_exact(places)
        .zip(high_rows.chunks_exact(places));
    let mut sums = [0; 4];
    for ((low_eq, high_eq), (low, high)) in halves(eq).zip(rows) {
        let row = sum_row::<M>(layer, weights, low, high);
        let factors = line_values::<M>(*low_eq, *high_eq);
        let more = add_each::<M>(sums, mul_each::<M>(factors, row));
        sums = more;
    }
    sums
}
