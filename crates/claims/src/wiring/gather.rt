// Gathering a layer's wiring, gate by gate, with a weight for each gate and a factor for each place below.
// Both kinds are gathered at once, so that the gates are gone over only once.
ghost use Rattle.std.specs.Prelude.{◌≡◌, ◌+◌, ◌%◌, ◌^◌, ◌<◌, T, length, if◌then◌else◌};
ghost use Rattle.arithmetic.specs.Numbers.{modulo, all_reduced};
ghost use Rattle.circuits.specs.Circuit.{sum, product};
ghost use Rattle.circuits.specs.Views.{kind_meant, gates_seen, size_seen, places_below};
ghost use Rattle.argument.specs.Claims.{same_kind};
ghost use Rattle.claims.specs.Gathered.{Gathered};

use super::Wiring;
use arithmetic::modular::Modular;
use circuits::{Kind, LayerView};

impl Wiring {
    // One gate's term more, on the side of its kind.
    fn add_term<M: Modular>(&mut self, kind: Kind, term: u32)
        requires term { term < M.modulus }
        requires gathered { (self.old.sums < M.modulus) × (self.old.products < M.modulus) }
        ensures sums { self.new.sums ≡ ((if same_kind sum (kind_meant kind) then term else 0) + self.old.sums) % M.modulus }
        ensures products { self.new.products ≡ ((if same_kind product (kind_meant kind) then term else 0) + self.old.products) % M.modulus }
        ensures below { (self.new.sums < M.modulus) × (self.new.products < M.modulus) }
    {
        match kind {
            Kind::Sum => self.sums = M::add(term, self.sums),
            Kind::Product => self.products = M::add(term, self.products),
        }
    }
}

pub fn gather<M: Modular>(layer: LayerView, weights: &[u32], at_x: &[u32], at_y: &[u32]) -> Wiring
    requires weights { (length weights.now ≡ 2 ^ size_seen layer) × (T (all_reduced (modulo M.modulus) weights.now)) }
    requires at_x { (length at_x.now ≡ 2 ^ places_below layer) × (T (all_reduced (modulo M.modulus) at_x.now)) }
    requires at_y { (length at_y.now ≡ 2 ^ places_below layer) × (T (all_reduced (modulo M.modulus) at_y.now)) }
    ensures { Gathered M.modulus weights.now at_x.now at_y.now (gates_seen layer.entry) 0 result }
{
    let mut gathered = Wiring {
        sums: 0,
        products: 0,
    };
    for (gate, weight) in layer.gates().zip(weights) {
        let term = M::mul(*weight, M::mul(at_x[gate.left], at_y[gate.right]));
        gathered.add_term::<M>(gate.kind, term);
    }
    gathered
}
