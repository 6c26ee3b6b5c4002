// The start of each part of a layer, in four lent quarters: v for the values, w for the weights, h and j for what is summed.
// The values go first into v, then into w while x is summed, and back.
ghost use Rattle.std.specs.Prelude.{◌≡◌, ℕ, ◌*◌, ◌^◌, ◌<◌, T, List, [], length, take, slice_index};
ghost use Rattle.arithmetic.specs.Numbers.{modulo, all_reduced};
ghost use Rattle.argument.specs.Claims.{Claim};
ghost use Rattle.circuits.specs.Circuit.{all_values, size_below};
ghost use Rattle.circuits.specs.Values.{EachBelow};
ghost use Rattle.circuits.specs.Views.{layer_seen, layers_seen, copies_above, inputs_below, size_seen, places_below};
ghost use Rattle.claims.specs.Shares.{SharesFit, shares_seen};
ghost use Rattle.phases.specs.Standing.{Rooms, CopyTables, LeftTables, RightTables};

use arithmetic::modular::Modular;
use circuits::{LayerView, LayersView, power};
use claims::share::SharesView;
use claims::wiring::weights::weigh;
use evaluation::work_out;
use fronts::gather::{gather_left, gather_right, scale, weigh_left};
use tables::eq::eq_table;

// The copies' variables: the values of what lies below, worked out from the inputs, the weights, and eq in h.
pub fn start_copies<M: Modular>(
    layer: LayerView,
    rest: LayersView,
    inputs: &[u32],
    copy: &[u32],
    shares: SharesView,
    v: &mut [u32],
    w: &mut [u32],
    h: &mut [u32],
)
    requires rooms { Rooms v.old w.old h.old }
    requires below { places_below layer ≡ size_below (layers_seen rest) (inputs_below rest) }
    requires inputs { (length inputs.now ≡ 2 ^ copies_above rest * 2 ^ inputs_below rest) × (EachBelow M.modulus inputs.now) }
    requires copy { (length copy.now ≡ copies_above rest) × (T (all_reduced (modulo M.modulus) copy.now)) }
    requires shares { SharesFit M.modulus (size_seen layer) shares }
    ensures { (k : Claim ℕ) → k.copy ≡ copy.now → k.shares ≡ shares_seen shares.entry → CopyTables M.modulus (layer_seen layer.entry) (places_below layer.entry) k (all_values (modulo M.modulus) (layers_seen rest.entry) (2 ^ inputs_below rest.entry) (2 ^ copies_above rest.entry) inputs.now) [] (copies_above rest.entry) v.new w.new h.new }
{
    work_out::<M>(rest, inputs, v, h);
    weigh::<M>(shares, &mut w[0..power(layer.size())]);
    eq_table::<M>(copy, h);
}

// The variables of x, once the copies' ones are fixed: gives eq at them, which stays a factor of all weights.
pub fn start_left<M: Modular>(
    layer: LayerView,
    v: &[u32],
    w: &mut [u32],
    h: &mut [u32],
    j: &mut [u32],
) -> u32
    requires rooms { (Rooms v.now w.old h.old) × (length j.old ≡ 65536) }
    requires values { T (all_reduced (modulo M.modulus) (take (2 ^ places_below layer) v.now)) }
    requires weights { T (all_reduced (modulo M.modulus) (take (2 ^ size_seen layer) w.old)) }
    requires factor { slice_index h.old 0 < M.modulus }
    ensures { (k : Claim ℕ) (X c : List ℕ) → CopyTables M.modulus (layer_seen layer.entry) (places_below layer.entry) k X c 0 v.now w.old h.old → LeftTables M.modulus (layer_seen layer.entry) (places_below layer.entry) k X c [] (places_below layer.entry) result v.now w.new h.new j.new }
{
    let gates = power(layer.size());
    let below = power(layer.size_below());
    let factor = h[0];
    let values = &v[0..below];
    let weights = &mut w[0..gates];
    let front_h = &mut h[0..below];
    let front_j = &mut j[0..below];
    scale::<M>(weights, factor);
    front_h.fill(0);
    front_j.fill(0);
    gather_left::<M>(layer, weights, values, front_h, front_j);
    w[0..below].copy_from_slice(values);
    factor
}

// The variables of y, once those of x are fixed: gives the value at x.
pub fn start_right<M: Modular>(
    layer: LayerView,
    shares: SharesView,
    x: &[u32],
    factor: u32,
    v: &mut [u32],
    w: &mut [u32],
    h: &mut [u32],
    j: &mut [u32],
) -> u32
    requires rooms { (Rooms v.old w.old h.old) × (length j.old ≡ 65536) }
    requires x { (length x.now ≡ places_below layer) × (T (all_reduced (modulo M.modulus) x.now)) }
    requires shares { SharesFit M.modulus (size_seen layer) shares }
    requires factor { (factor < M.modulus) × (slice_index v.old 0 < M.modulus) }
    ensures { (k : Claim ℕ) (X c : List ℕ) → k.shares ≡ shares_seen shares.entry → LeftTables M.modulus (layer_seen layer.entry) (places_below layer.entry) k X c x.now 0 factor v.old w.old h.old j.old → RightTables M.modulus (layer_seen layer.entry) (places_below layer.entry) k X c x.now [] (places_below layer.entry) result v.new h.new j.new }
{
    let gates = power(layer.size());
    let below = power(layer.size_below());
    let value = v[0];
    v[0..below].copy_from_slice(&w[0..below]);
    let w = &mut w[0..gates];
    let h = &mut h[0..below];
    let j = &mut j[0..below];
    weigh::<M>(shares, w);
    scale::<M>(w, factor);
    eq_table::<M>(x, h);
    weigh_left::<M>(layer, w, h);
    h.fill(0);
    j.fill(0);
    gather_right::<M>(layer, w, value, h, j);
    value
}
