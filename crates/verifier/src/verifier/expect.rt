// What the layer's expression is at the coins' point, with two values for those below.
// It is due when all variables of the layer have their coins.
ghost use Rattle.std.specs.Prelude.{◌≡◌, ◌+◌, ◌*◌, ◌%◌, ◌<◌, ◌≤◌, length, slice_index_or};
ghost use Rattle.circuits.specs.Circuit.{sum, product};
ghost use Rattle.circuits.specs.Views.{no_layer};
ghost use Rattle.circuits.specs.Words.{modulus as modulus31};
ghost use Rattle.tables.specs.Multilinear.{eq_poly};
ghost use Rattle.argument.specs.Claims.{shared_wiring};
ghost use Rattle.verdicts.specs.Machine.{variables_of, size_under, point_c, point_x, point_y, expected_of};
ghost use Rattle.claims.specs.Meaning.{numbers};
ghost use Rattle.verifier.specs.Meaning.{stand_of};

use super::Verifier;
use super::parts::Parts;
use arithmetic::mersenne::Mersenne31;
use arithmetic::modular::Modular;
use claims::wiring::Wiring;
use claims::wiring::layer::wire_shares;
use tables::eq::eq_at;

// E (A (a + b) + M a b)
fn combine<M: Modular>(at_copy: u32, wiring: Wiring, a: u32, b: u32) -> u32
    requires at_copy { at_copy < M.modulus }
    requires wiring { (wiring.sums < M.modulus) × (wiring.products < M.modulus) }
    requires values { (a < M.modulus) × (b < M.modulus) }
    ensures { result ≡ (at_copy * (((wiring.sums * ((a + b) % M.modulus)) % M.modulus + (wiring.products * ((a * b) % M.modulus)) % M.modulus) % M.modulus)) % M.modulus }
{
    let sums = M::mul(wiring.sums, M::add(a, b));
    let products = M::mul(wiring.products, M::mul(a, b));
    M::mul(at_copy, M::add(sums, products))
}

impl<'a> Verifier<'a> {
    // A and M of the layer, for all shares of the claim.
    fn wiring(&self) -> Wiring
        requires some { 0 < length (stand_of self.now).layers }
        requires done { variables_of (stand_of self.now) ≤ length (stand_of self.now).point }
        ensures sums { result.sums ≡ shared_wiring numbers sum (slice_index_or (stand_of self.now).layers 0 no_layer) (size_under (stand_of self.now)) (stand_of self.now).claim.shares (point_x (stand_of self.now)) (point_y (stand_of self.now)) }
        ensures products { result.products ≡ shared_wiring numbers product (slice_index_or (stand_of self.now).layers 0 no_layer) (size_under (stand_of self.now)) (stand_of self.now).claim.shares (point_x (stand_of self.now)) (point_y (stand_of self.now)) }
        ensures below { (result.sums < modulus31) × (result.products < modulus31) }
    {
        let layer = self.layers.first();
        let shares = self.claim.shares.view(layer.size() as usize);
        let Parts { x, y, .. } = self.parts();
        wire_shares::<Mersenne31>(layer, shares, x, y)
    }

    // E: the eq polynomial of the claim's point among the copies and the coins' one.
    fn at_copy(&self) -> u32
        requires some { 0 < length (stand_of self.now).layers }
        requires done { variables_of (stand_of self.now) ≤ length (stand_of self.now).point }
        ensures value { result ≡ eq_poly numbers (stand_of self.now).claim.copy (point_c (stand_of self.now)) }
        ensures below { result < modulus31 }
    {
        let point = self.parts().copies;
        eq_at::<Mersenne31>(&self.claim.copy[0..point.len()], point)
    }

    pub(super) fn expected(&self, a: u32, b: u32) -> u32
        requires some { 0 < length (stand_of self.now).layers }
        requires done { variables_of (stand_of self.now) ≤ length (stand_of self.now).point }
        requires values { (a < modulus31) × (b < modulus31) }
        ensures { result ≡ expected_of numbers (stand_of self.now).layers (size_under (stand_of self.now)) (stand_of self.now).claim (point_c (stand_of self.now)) (point_x (stand_of self.now)) (point_y (stand_of self.now)) a b }
    {
        combine::<Mersenne31>(self.at_copy(), self.wiring(), a, b)
    }
}
