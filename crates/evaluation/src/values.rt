// Working a layer out: its gates over the values of the layer below it, in one copy and in all.
// The copies' values lie one after the other, below as above.
ghost use Rattle.std.specs.Prelude.{◌≡◌, ◌+◌, ◌*◌, ◌^◌, ◌<◌, ◌≤◌, [], ◌∷◌, length, take};
ghost use Rattle.arithmetic.specs.Numbers.{modulo};
ghost use Rattle.circuits.specs.Circuit.{gate_values, all_values, size_below};
ghost use Rattle.circuits.specs.Circuit.{combine as combined};
ghost use Rattle.circuits.specs.Values.{EachBelow};
ghost use Rattle.circuits.specs.Views.{kind_meant, gates_seen, layer_seen, size_seen, places_below, layers_seen, copies_above, inputs_below};

use arithmetic::modular::Modular;
use circuits::{Kind, LayerView, LayersView, power};

fn combine<M: Modular>(kind: Kind, a: u32, b: u32) -> u32
    requires { (a < M.modulus) × (b < M.modulus) }
    ensures { result ≡ combined (modulo M.modulus) (kind_meant kind) a b }
{
    match kind {
        Kind::Sum => M::add(a, b),
        Kind::Product => M::mul(a, b),
    }
}

// One copy: the values of a layer's gates over those of what lies below it.
fn gate_values<M: Modular>(layer: LayerView, below: &[u32], values: &mut [u32])
    requires lengths { (length below.now ≡ 2 ^ places_below layer) × (length values.old ≡ 2 ^ size_seen layer) }
    requires reduced { EachBelow M.modulus below.now }
    ensures { values.new ≡ gate_values (modulo M.modulus) below.now (gates_seen layer.entry) }
{
    // Not zipped with the layer's gates, since nothing would then be known of the values that the loop wrote.
    for (i, value) in values.iter_mut().enumerate() {
        let gate = layer.gate(i);
        *value = combine::<M>(gate.kind, below[gate.left], below[gate.right]);
    }
}

// All copies, one after the other: in each, the layer's values over those that lie below in the same copy.
pub fn layer_values<M: Modular>(layer: LayerView, copies: u32, below: &[u32], values: &mut [u32])
    requires limit { copies ≤ 16 }
    requires lengths { (length below.now ≡ 2 ^ copies * 2 ^ places_below layer) × (length values.old ≡ 2 ^ copies * 2 ^ size_seen layer) }
    requires reduced { EachBelow M.modulus below.now }
    ensures { values.new ≡ all_values (modulo M.modulus) (layer_seen layer.entry ∷ []) (2 ^ places_below layer.entry) (2 ^ copies) below.now }
{
    let places = power(layer.size_below());
    let gates = layer.gate_count();
    let count = power(copies);
    // By places, since after `chunks_exact_mut` nothing would be known of the values that the loop wrote.
    for copy in 0..count {
        let from = copy * places;
        let to = copy * gates;
        gate_values::<M>(
            layer,
            &below[from..from + places],
            &mut values[to..to + gates],
        );
    }
}

// Works the first of some layers out, in all copies, or copies the inputs where there is none.
// The values then stand at the front of `values`; each layer takes the two rooms the other way round.
pub fn work_out<M: Modular>(
    layers: LayersView,
    inputs: &[u32],
    values: &mut [u32],
    spare: &mut [u32],
)
    requires inputs { length inputs.now ≡ 2 ^ copies_above layers * 2 ^ inputs_below layers }
    requires reduced { EachBelow M.modulus inputs.now }
    requires room { (65536 ≤ length values.old) × (65536 ≤ length spare.old) }
    ensures { take (2 ^ copies_above layers.entry * 2 ^ size_below (layers_seen layers.entry) (inputs_below layers.entry)) values.new ≡ all_values (modulo M.modulus) (layers_seen layers.entry) (2 ^ inputs_below layers.entry) (2 ^ copies_above layers.entry) inputs.now }
{
    match layers.split_first() {
        None => values[0..inputs.len()].copy_from_slice(inputs),
        Some((first, rest)) => {
            work_out::<M>(rest, inputs, spare, values);
            let below = &spare[0..rest.value_count()];
            let made = layers.value_count();
            layer_values::<M>(first, layers.copies(), below, &mut values[0..made]);
        }
    }
}
