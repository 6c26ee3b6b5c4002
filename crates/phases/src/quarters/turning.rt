// The turns of a layer's parts, in the struct of its four tables.
// The references stay, so that whoever lent the words knows what they hold afterwards.
ghost use Rattle.std.specs.Prelude.{◌≡◌, ℕ, ◌+◌, ◌-◌, ◌*◌, ◌^◌, ◌<◌, ◌≤◌, T, List, [], ◌∷◌, ◌++◌, length, take};
ghost use Rattle.arithmetic.specs.Numbers.{modulo, all_reduced};
ghost use Rattle.argument.specs.Claims.{Claim};
ghost use Rattle.argument.specs.Sumcheck.{Prover, respond};
ghost use Rattle.circuits.specs.Views.{layer_seen, size_seen, places_below};
ghost use Rattle.tables.specs.Multilinear.{sum_corners};
ghost use Rattle.phases.specs.References.{SameReferences};
ghost use Rattle.phases.specs.Standing.{CopyTables, ProductTables, Fixed, Fronts, term_of};

use super::Tables;
use crate::turns::{copy_answer, copy_coin, product_answer, product_coin};
use arithmetic::modular::Modular;
use circuits::LayerView;

impl<'t> Tables<'t> {
    // The four values for the first of `left` copies' variables.
    pub fn copy_answer<M: Modular>(&self, layer: LayerView, left: u32) -> [u32; 4]
        requires left { (0 < left) × (left + places_below layer ≤ 16) }
        requires values { T (all_reduced (modulo M.modulus) (take (2 ^ left * 2 ^ places_below layer) self.now.v.now)) }
        requires weights { T (all_reduced (modulo M.modulus) (take (2 ^ size_seen layer) self.now.w.now)) }
        requires eq { T (all_reduced (modulo M.modulus) (take (2 ^ left) self.now.h.now)) }
        ensures answer { (k : Claim ℕ) (X c : List ℕ) → CopyTables M.modulus (layer_seen layer.entry) (places_below layer.entry) k X c left self.now.v.now self.now.w.now self.now.h.now → (next : List ℕ → Prover ℕ) → result ≡ respond (modulo M.modulus) left (λ z. sum_corners (modulo M.modulus) (places_below layer.entry) (λ x. sum_corners (modulo M.modulus) (places_below layer.entry) (λ y. term_of M.modulus (layer_seen layer.entry) (places_below layer.entry) k X (c ++ z) x y))) next [] }
        ensures reduced { T (all_reduced (modulo M.modulus) result) }
    {
        copy_answer::<M>(layer, left, self.v, self.w, self.h)
    }

    // Fixes the first of `left` copies' variables in the tables of values and of eq.
    pub fn copy_coin<M: Modular>(&mut self, layer: LayerView, left: u32, coin: u32)
        requires left { (0 < left) × (left + places_below layer ≤ 16) }
        requires coin { coin < M.modulus }
        requires values { T (all_reduced (modulo M.modulus) (take (2 ^ left * 2 ^ places_below layer) self.old.v.now)) }
        requires eq { T (all_reduced (modulo M.modulus) (take (2 ^ left) self.old.h.now)) }
        ensures tables { (k : Claim ℕ) (X c w : List ℕ) → CopyTables M.modulus (layer_seen layer.entry) (places_below layer.entry) k X c left self.old.v.now w self.old.h.now → CopyTables M.modulus (layer_seen layer.entry) (places_below layer.entry) k X (c ++ (coin ∷ [])) (left - 1) self.new.v.now w self.new.h.now }
        ensures w { self.new.w.now ≡ self.old.w.now }
        ensures j { self.new.j.now ≡ self.old.j.now }
        ensures same_references { SameReferences self.old self.new }
    {
        copy_coin::<M>(layer, left, coin, self.v, self.h);
    }

    // The four values for the first of `left` variables of a sum V H + J.
    pub fn product_answer<M: Modular>(&self, left: u32) -> [u32; 4]
        requires left { (0 < left) × (left ≤ 16) }
        requires fronts { Fronts M.modulus left self.now.v.now self.now.h.now self.now.j.now }
        ensures answer { (F : List ℕ → ℕ) (G : List ℕ → ℕ) → ProductTables M.modulus F G left self.now.v.now self.now.h.now self.now.j.now → (next : List ℕ → Prover ℕ) → result ≡ respond (modulo M.modulus) left G next [] }
        ensures reduced { T (all_reduced (modulo M.modulus) result) }
    {
        product_answer::<M>(left, self.v, self.h, self.j)
    }

    // Fixes the first of `left` variables in the three tables.
    pub fn product_coin<M: Modular>(&mut self, left: u32, coin: u32)
        requires left { (0 < left) × (left ≤ 16) }
        requires coin { coin < M.modulus }
        requires fronts { Fronts M.modulus left self.old.v.now self.old.h.now self.old.j.now }
        ensures v { Fixed M.modulus (left - 1) coin self.old.v.now self.new.v.now }
        ensures h { Fixed M.modulus (left - 1) coin self.old.h.now self.new.h.now }
        ensures j { Fixed M.modulus (left - 1) coin self.old.j.now self.new.j.now }
        ensures w { self.new.w.now ≡ self.old.w.now }
        ensures same_references { SameReferences self.old self.new }
    {
        product_coin::<M>(left, coin, self.v, self.h, self.j);
    }
}
