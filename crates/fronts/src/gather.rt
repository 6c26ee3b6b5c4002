// The tables H and J of a phase, gathered from a layer's gates in one pass: the sum over the phase's corners is that of V H + J.
// A gate of weight w and other value b stands for w (V + b) if it is a sum, for w b V if it is a product.
ghost use Rattle.std.specs.Prelude.{◌≡◌, ℕ, ◌^◌, ◌<◌, T, map, length};
ghost use Rattle.arithmetic.specs.Numbers.{modulo, all_reduced};
ghost use Rattle.circuits.specs.Views.{kind_meant, gates_seen, size_seen, places_below};
ghost use Rattle.circuits.specs.Circuit as circuit;
ghost use Rattle.fronts.specs.Gathers.{add_at, to_product, to_rest, gathered, gather_h, gather_j, weights_at, gather_hy, gather_jy};
ghost use Rattle.fronts.specs.Picks.{Within, Picks};

use arithmetic::modular::Modular;
use circuits::{Gate, Kind, LayerView};

fn add_at<M: Modular>(table: &mut [u32], place: usize, number: u32)
    requires place { place < length table.old }
    requires number { number < M.modulus }
    requires reduced { T (all_reduced (modulo M.modulus) table.old) }
    ensures table { table.new ≡ add_at (modulo M.modulus) table.old place number }
    ensures reduced { T (all_reduced (modulo M.modulus) table.new) }
{
    table[place] = M::add(table[place], number);
}

// Adds what one gate gives: to H what stands with V, to J the rest. A product has no rest.
fn add_gate<M: Modular>(
    kind: Kind,
    place: usize,
    weight: u32,
    other: u32,
    h: &mut [u32],
    j: &mut [u32],
)
    requires place { (place < length h.old) × (place < length j.old) }
    requires below { (weight < M.modulus) × (other < M.modulus) }
    requires reduced { (T (all_reduced (modulo M.modulus) h.old)) × (T (all_reduced (modulo M.modulus) j.old)) }
    ensures h { h.new ≡ add_at (modulo M.modulus) h.old place (to_product (modulo M.modulus) (kind_meant kind) weight other) }
    ensures j { j.new ≡ add_at (modulo M.modulus) j.old place (to_rest (modulo M.modulus) (kind_meant kind) weight other) }
    ensures h_reduced { T (all_reduced (modulo M.modulus) h.new) }
    ensures j_reduced { T (all_reduced (modulo M.modulus) j.new) }
{
    let both = M::mul(weight, other);
    match kind {
        Kind::Sum => {
            add_at::<M>(h, place, weight);
            add_at::<M>(j, place, both);
        }
        Kind::Product => add_at::<M>(h, place, both),
    }
}

// Passes the gates of a layer: `pick` gives a gate's place in the tables, and the value at its other place.
fn gather<M: Modular, F: Fn(Gate) -> (usize, u32)>(
    layer: LayerView,
    weights: &[u32],
    pick: F,
    h: &mut [u32],
    j: &mut [u32],
)
    requires gates { length weights.now ≡ 2 ^ size_seen layer }
    requires room { (length h.old ≡ 2 ^ places_below layer) × (length j.old ≡ 2 ^ places_below layer) }
    requires given { T (all_reduced (modulo M.modulus) weights.now) }
    requires reduced { (T (all_reduced (modulo M.modulus) h.old)) × (T (all_reduced (modulo M.modulus) j.old)) }
    requires callable { (gate : _) → Within (2 ^ places_below layer) gate → F.pre pick gate }
    requires picked { (gate : _) (r : _) → Within (2 ^ places_below layer) gate → F.post pick gate r → (r.0 < 2 ^ places_below layer) × (r.1 < M.modulus) }
    ensures h { (place other : circuit.Gate → ℕ) → Picks (2 ^ places_below layer.entry) (F.post pick) place other → h.new ≡ gathered (modulo M.modulus) place (λ g w. to_product (modulo M.modulus) g.kind w (other g)) (gates_seen layer.entry) weights.now h.old }
    ensures j { (place other : circuit.Gate → ℕ) → Picks (2 ^ places_below layer.entry) (F.post pick) place other → j.new ≡ gathered (modulo M.modulus) place (λ g w. to_rest (modulo M.modulus) g.kind w (other g)) (gates_seen layer.entry) weights.now j.old }
    ensures h_reduced { T (all_reduced (modulo M.modulus) h.new) }
    ensures j_reduced { T (all_reduced (modulo M.modulus) j.new) }
{
    for (gate, weight) in layer.gates().zip(weights) {
        let (place, other) = pick(gate);
        add_gate::<M>(gate.kind, place, *weight, other, h, j);
    }
}

// For x: by the gates' left places. The other value is that of the right place.
pub fn gather_left<M: Modular>(
    layer: LayerView,
    weights: &[u32],
    values: &[u32],
    h: &mut [u32],
    j: &mut [u32],
)
    requires gates { length weights.now ≡ 2 ^ size_seen layer }
    requires places { length values.now ≡ 2 ^ places_below layer }
    requires room { (length h.old ≡ 2 ^ places_below layer) × (length j.old ≡ 2 ^ places_below layer) }
    requires given { (T (all_reduced (modulo M.modulus) weights.now)) × (T (all_reduced (modulo M.modulus) values.now)) }
    requires reduced { (T (all_reduced (modulo M.modulus) h.old)) × (T (all_reduced (modulo M.modulus) j.old)) }
    ensures h { h.new ≡ gather_h (modulo M.modulus) (gates_seen layer.entry) weights.now values.now h.old }
    ensures j { j.new ≡ gather_j (modulo M.modulus) (gates_seen layer.entry) weights.now values.now j.old }
    ensures h_reduced { T (all_reduced (modulo M.modulus) h.new) }
    ensures j_reduced { T (all_reduced (modulo M.modulus) j.new) }
{
    gather::<M, _>(layer, weights, |gate| (gate.left, values[gate.right]), h, j);
}

// For y, x being fixed: by the gates' right places, with weights taken at x. The other value is that at x.
pub fn gather_right<M: Modular>(
    layer: LayerView,
    weights: &[u32],
    value_at_x: u32,
    h: &mut [u32],
    j: &mut [u32],
)
    requires gates { length weights.now ≡ 2 ^ size_seen layer }
    requires room { (length h.old ≡ 2 ^ places_below layer) × (length j.old ≡ 2 ^ places_below layer) }
    requires given { (T (all_reduced (modulo M.modulus) weights.now)) × (value_at_x < M.modulus) }
    requires reduced { (T (all_reduced (modulo M.modulus) h.old)) × (T (all_reduced (modulo M.modulus) j.old)) }
    ensures h { h.new ≡ gather_hy (modulo M.modulus) (gates_seen layer.entry) weights.now value_at_x h.old }
    ensures j { j.new ≡ gather_jy (modulo M.modulus) (gates_seen layer.entry) weights.now value_at_x j.old }
    ensures h_reduced { T (all_reduced (modulo M.modulus) h.new) }
    ensures j_reduced { T (all_reduced (modulo M.modulus) j.new) }
{
    gather::<M, _>(layer, weights, |gate| (gate.right, value_at_x), h, j);
}

// Takes the weights at x: each times eq of the gate's left place at x.
pub fn weigh_left<M: Modular>(layer: LayerView, weights: &mut [u32], eq_at_x: &[u32])
    requires gates { length weights.old ≡ 2 ^ size_seen layer }
    requires places { length eq_at_x.now ≡ 2 ^ places_below layer }
    requires given { (T (all_reduced (modulo M.modulus) weights.old)) × (T (all_reduced (modulo M.modulus) eq_at_x.now)) }
    ensures weights { weights.new ≡ weights_at (modulo M.modulus) (gates_seen layer.entry) weights.old eq_at_x.now }
    ensures reduced { T (all_reduced (modulo M.modulus) weights.new) }
{
    for (i, weight) in weights.iter_mut().enumerate() {
        // by its place: after a zip with `iter_mut` nothing would be known of the weights
        let gate = layer.gate(i);
        *weight = M::mul(*weight, eq_at_x[gate.left]);
    }
}

// Each number times the factor.
pub fn scale<M: Modular>(table: &mut [u32], factor: u32)
    requires factor { factor < M.modulus }
    requires reduced { T (all_reduced (modulo M.modulus) table.old) }
    ensures table { table.new ≡ map (λ x. (modulo M.modulus).mul x factor) table.old }
    ensures reduced { T (all_reduced (modulo M.modulus) table.new) }
{
    for x in table.iter_mut() {
        *x = M::mul(*x, factor);
    }
}
