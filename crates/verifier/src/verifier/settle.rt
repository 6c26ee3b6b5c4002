// About the inputs nobody is asked: the claim's sum is worked out from them, and has to be the total.
// This is where the verifier ends, once no layer is left.
ghost use Rattle.std.specs.Prelude.{◌≡◌, length};
ghost use Rattle.verdicts.specs.Machine.{settled};
ghost use Rattle.claims.specs.Meaning.{numbers as field};
ghost use Rattle.verifier.specs.Meaning.{stand_of, inputs_of};

use super::Verifier;
use arithmetic::mersenne::Mersenne31;
use claims::sums::sum_shares;
use verdicts::verdict::{Place, Verdict};

impl<'a> Verifier<'a> {
    pub fn settle(&self) -> Verdict
        requires { length (stand_of self.now).layers ≡ 0 }
        ensures { result ≡ settled field (inputs_of self.now) (stand_of self.now) }
    {
        let copies = self.layers.copies() as usize;
        let size = self.layers.inputs() as usize;
        let shares = self.claim.shares.view(size);
        let sum = sum_shares::<Mersenne31>(self.inputs, &self.claim.copy[0..copies], shares);
        if sum == self.claim.total {
            Verdict::Believed
        } else {
            Verdict::Stopped(self.layer, Place::Inputs)
        }
    }
}
