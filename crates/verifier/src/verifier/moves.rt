// Where the verifier goes from where it stands: on to the next variable, or down to the layer below.
// Each move makes the verifier anew, so that what holds of it is shown in one place.
ghost use Rattle.std.specs.Prelude.{◌≡◌, ◌+◌, ◌<◌, length, drop};
ghost use Rattle.circuits.specs.Circuit.{size_below};
ghost use Rattle.circuits.specs.Words.{modulus};
ghost use Rattle.verdicts.specs.Machine.{variables_of, after_variable, stand_at};
ghost use Rattle.claims.specs.Meaning.{claim_meant};
ghost use Rattle.verifier.specs.Meaning.{stand_of, inputs_of};

use super::Verifier;
use claims::claim::Claim;
use claims::drawn::Drawn;

impl<'a> Verifier<'a> {
    // The next variable, after a coin, with what is then claimed of the sum.
    pub(super) fn advanced(&self, coin: u32, total: u32) -> Verifier<'a>
        requires due { length (stand_of self.now).point < variables_of (stand_of self.now) }
        requires reduced { (coin < modulus) × (total < modulus) }
        ensures stand { stand_of result ≡ after_variable (stand_of self.now) coin total }
        ensures inputs { inputs_of result ≡ inputs_of self.now }
    {
        let mut drawn = self.drawn;
        drawn.push(coin);
        Verifier {
            layers: self.layers,
            inputs: self.inputs,
            layer: self.layer,
            claim: self.claim,
            drawn,
            total,
        }
    }

    // The layer below, with a claim about it.
    pub(super) fn descended(&self, claim: Claim) -> Verifier<'a>
        requires { 0 < length (stand_of self.now).layers }
        ensures stand { stand_of result ≡ stand_at (stand_of self.now).copies (stand_of self.now).inputs ((stand_of self.now).layer + 1) (drop 1 (stand_of self.now).layers) (claim_meant (stand_of self.now).copies (size_below (drop 1 (stand_of self.now).layers) (stand_of self.now).inputs) claim) }
        ensures inputs { inputs_of result ≡ inputs_of self.now }
    {
        Verifier {
            layers: self.layers.rest(),
            inputs: self.inputs,
            layer: self.layer + 1,
            claim,
            drawn: Drawn::new(),
            total: claim.total,
        }
    }
}
