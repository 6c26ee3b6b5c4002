// The starts of a layer's parts, in the struct of its four tables.
// The references stay, so that whoever lent the words knows what they hold afterwards.
ghost use Rattle.std.specs.Prelude.{◌≡◌, ℕ, ◌*◌, ◌^◌, ◌<◌, T, List, [], length, take, slice_index};
ghost use Rattle.arithmetic.specs.Numbers.{modulo, all_reduced};
ghost use Rattle.argument.specs.Claims.{Claim};
ghost use Rattle.circuits.specs.Circuit.{all_values, size_below};
ghost use Rattle.circuits.specs.Values.{EachBelow};
ghost use Rattle.circuits.specs.Views.{layer_seen, layers_seen, copies_above, inputs_below, size_seen, places_below};
ghost use Rattle.claims.specs.Shares.{SharesFit, shares_seen};
ghost use Rattle.phases.specs.References.{SameReferences};
ghost use Rattle.phases.specs.Standing.{CopyTables, LeftTables, RightTables};

use super::Tables;
use crate::starts::{start_copies, start_left, start_right};
use arithmetic::modular::Modular;
use circuits::{LayerView, LayersView};
use claims::share::SharesView;

impl<'t> Tables<'t> {
    // The copies' variables: the values of what lies below, worked out from the inputs, the weights, and eq in h.
    pub fn start_copies<M: Modular>(
        &mut self,
        layer: LayerView,
        rest: LayersView,
        inputs: &[u32],
        copy: &[u32],
        shares: SharesView,
    )
        requires below { places_below layer ≡ size_below (layers_seen rest) (inputs_below rest) }
        requires inputs { (length inputs.now ≡ 2 ^ copies_above rest * 2 ^ inputs_below rest) × (EachBelow M.modulus inputs.now) }
        requires copy { (length copy.now ≡ copies_above rest) × (T (all_reduced (modulo M.modulus) copy.now)) }
        requires shares { SharesFit M.modulus (size_seen layer) shares }
        ensures tables { (k : Claim ℕ) → k.copy ≡ copy.now → k.shares ≡ shares_seen shares.entry → CopyTables M.modulus (layer_seen layer.entry) (places_below layer.entry) k (all_values (modulo M.modulus) (layers_seen rest.entry) (2 ^ inputs_below rest.entry) (2 ^ copies_above rest.entry) inputs.now) [] (copies_above rest.entry) self.new.v.now self.new.w.now self.new.h.now }
        ensures j { self.new.j.now ≡ self.old.j.now }
        ensures same_references { SameReferences self.old self.new }
    {
        start_copies::<M>(layer, rest, inputs, copy, shares, self.v, self.w, self.h);
    }

    // The variables of x, once the copies' ones are fixed: gives eq at them, which stays a factor of all weights.
    pub fn start_left<M: Modular>(&mut self, layer: LayerView) -> u32
        requires values { T (all_reduced (modulo M.modulus) (take (2 ^ places_below layer) self.old.v.now)) }
        requires weights { T (all_reduced (modulo M.modulus) (take (2 ^ size_seen layer) self.old.w.now)) }
        requires factor { slice_index self.old.h.now 0 < M.modulus }
        ensures tables { (k : Claim ℕ) (X c : List ℕ) → CopyTables M.modulus (layer_seen layer.entry) (places_below layer.entry) k X c 0 self.old.v.now self.old.w.now self.old.h.now → LeftTables M.modulus (layer_seen layer.entry) (places_below layer.entry) k X c [] (places_below layer.entry) result self.new.v.now self.new.w.now self.new.h.now self.new.j.now }
        ensures v { self.new.v.now ≡ self.old.v.now }
        ensures same_references { SameReferences self.old self.new }
    {
        // lent as `&mut`: of a field lent as `&` it would not be known what it holds afterwards
        let v = &mut *self.v;
        start_left::<M>(layer, v, self.w, self.h, self.j)
    }

    // The variables of y, once those of x are fixed: gives the value at x.
    pub fn start_right<M: Modular>(
        &mut self,
        layer: LayerView,
        shares: SharesView,
        x: &[u32],
        factor: u32,
    ) -> u32
        requires x { (length x.now ≡ places_below layer) × (T (all_reduced (modulo M.modulus) x.now)) }
        requires shares { SharesFit M.modulus (size_seen layer) shares }
        requires factor { (factor < M.modulus) × (slice_index self.old.v.now 0 < M.modulus) }
        ensures tables { (k : Claim ℕ) (X c : List ℕ) → k.shares ≡ shares_seen shares.entry → LeftTables M.modulus (layer_seen layer.entry) (places_below layer.entry) k X c x.now 0 factor self.old.v.now self.old.w.now self.old.h.now self.old.j.now → RightTables M.modulus (layer_seen layer.entry) (places_below layer.entry) k X c x.now [] (places_below layer.entry) result self.new.v.now self.new.h.now self.new.j.now }
        ensures same_references { SameReferences self.old self.new }
    {
        start_right::<M>(layer, shares, x, factor, self.v, self.w, self.h, self.j)
    }
}
