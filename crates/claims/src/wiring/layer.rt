// A layer's wiring at a point of the values below, for all shares of a claim together.
// Both tables of eq are made once, and the gates are gone over once.
ghost use Rattle.std.specs.Prelude.{◌≡◌, ◌^◌, ◌<◌, ◌≤◌, T, length};
ghost use Rattle.arithmetic.specs.Numbers.{modulo, all_reduced};
ghost use Rattle.circuits.specs.Circuit.{sum, product};
ghost use Rattle.circuits.specs.Views.{layer_seen, gates_seen, size_seen, places_below};
ghost use Rattle.argument.specs.Claims.{shared_wiring};
ghost use Rattle.claims.specs.Gathered.{Wired};
ghost use Rattle.claims.specs.Shares.{SharesFit, shares_seen};

use super::Wiring;
use super::gather::gather;
use super::weights::weigh;
use crate::share::SharesView;
use arithmetic::modular::Modular;
use circuits::{LayerView, MOST_PLACES, power};
use tables::eq::eq_table;

// In room for the two tables of eq.
fn wire_in<M: Modular>(
    layer: LayerView,
    weights: &[u32],
    x: &[u32],
    y: &[u32],
    at_x: &mut [u32],
    at_y: &mut [u32],
) -> Wiring
    requires weights { (length weights.now ≡ 2 ^ size_seen layer) × (T (all_reduced (modulo M.modulus) weights.now)) }
    requires x { (length x.now ≡ places_below layer) × (T (all_reduced (modulo M.modulus) x.now)) }
    requires y { (length y.now ≡ places_below layer) × (T (all_reduced (modulo M.modulus) y.now)) }
    requires room { (length at_x.old ≡ 2 ^ places_below layer) × (length at_y.old ≡ 2 ^ places_below layer) }
    ensures { Wired M.modulus weights.now (places_below layer.entry) x.now y.now (gates_seen layer.entry) result }
{
    eq_table::<M>(x, at_x);
    eq_table::<M>(y, at_y);
    gather::<M>(layer, weights, at_x, at_y)
}

fn wire<M: Modular>(layer: LayerView, weights: &[u32], x: &[u32], y: &[u32]) -> Wiring
    requires weights { (length weights.now ≡ 2 ^ size_seen layer) × (T (all_reduced (modulo M.modulus) weights.now)) }
    requires x { (length x.now ≡ places_below layer) × (T (all_reduced (modulo M.modulus) x.now)) }
    requires y { (length y.now ≡ places_below layer) × (T (all_reduced (modulo M.modulus) y.now)) }
    ensures { Wired M.modulus weights.now (places_below layer.entry) x.now y.now (gates_seen layer.entry) result }
{
    let mut at_x = [0; MOST_PLACES];
    let mut at_y = [0; MOST_PLACES];
    let below = power(layer.size_below());
    wire_in::<M>(
        layer,
        weights,
        x,
        y,
        &mut at_x[0..below],
        &mut at_y[0..below],
    )
}

// In room for the weights.
fn wire_shares_in<M: Modular>(
    layer: LayerView,
    shares: SharesView,
    x: &[u32],
    y: &[u32],
    weights: &mut [u32],
) -> Wiring
    requires shares { SharesFit M.modulus (size_seen layer) shares }
    requires x { (length x.now ≡ places_below layer) × (T (all_reduced (modulo M.modulus) x.now)) }
    requires y { (length y.now ≡ places_below layer) × (T (all_reduced (modulo M.modulus) y.now)) }
    requires room { (length weights.old ≡ 2 ^ size_seen layer) × (size_seen layer ≤ 16) }
    ensures sums { result.sums ≡ shared_wiring (modulo M.modulus) sum (layer_seen layer.entry) (places_below layer.entry) (shares_seen shares.entry) x.now y.now }
    ensures products { result.products ≡ shared_wiring (modulo M.modulus) product (layer_seen layer.entry) (places_below layer.entry) (shares_seen shares.entry) x.now y.now }
    ensures below { (result.sums < M.modulus) × (result.products < M.modulus) }
{
    weigh::<M>(shares, weights);
    wire::<M>(layer, weights, x, y)
}

// The wiring of the sums and of the products of a layer, for a claim with these shares.
pub fn wire_shares<M: Modular>(layer: LayerView, shares: SharesView, x: &[u32], y: &[u32]) -> Wiring
    requires shares { SharesFit M.modulus (size_seen layer) shares }
    requires x { (length x.now ≡ places_below layer) × (T (all_reduced (modulo M.modulus) x.now)) }
    requires y { (length y.now ≡ places_below layer) × (T (all_reduced (modulo M.modulus) y.now)) }
    ensures sums { result.sums ≡ shared_wiring (modulo M.modulus) sum (layer_seen layer.entry) (places_below layer.entry) (shares_seen shares.entry) x.now y.now }
    ensures products { result.products ≡ shared_wiring (modulo M.modulus) product (layer_seen layer.entry) (places_below layer.entry) (shares_seen shares.entry) x.now y.now }
    ensures below { (result.sums < M.modulus) × (result.products < M.modulus) }
{
    let mut weights = [0; MOST_PLACES];
    let gates = power(layer.size());
    wire_shares_in::<M>(layer, shares, x, y, &mut weights[0..gates])
}
