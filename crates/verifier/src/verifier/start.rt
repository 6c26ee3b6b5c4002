// Where the verifier begins: the first coins choose a point of the claimed outputs' polynomial.
// What that polynomial is there is the first claim, with one share.
ghost use Rattle.std.specs.Prelude.{◌≡◌, ◌+◌, ◌^◌, true, length};
ghost use Rattle.arithmetic.specs.Numbers.{all_reduced};
ghost use Rattle.circuits.specs.Views.{circuit_seen};
ghost use Rattle.argument.specs.Argument.{first_coins};
ghost use Rattle.verdicts.specs.Machine.{start};
ghost use Rattle.claims.specs.Meaning.{numbers as field};
ghost use Rattle.verifier.specs.Meaning.{stand_of, inputs_of};

use super::Verifier;
use arithmetic::mersenne::Mersenne31;
use circuits::CircuitView;
use claims::claim::{Claim, Share, Shares};
use claims::cut::cut;
use claims::drawn::Drawn;
use claims::extension::extension_at;

impl<'a> Verifier<'a> {
    pub fn new(
        circuit: CircuitView<'a>,
        inputs: &'a [u32],
        claimed: &[u32],
        coins: &[u32],
    ) -> Verifier<'a>
        requires inputs { (length inputs.now ≡ 2 ^ ((circuit_seen circuit).copies + (circuit_seen circuit).inputs)) × (all_reduced field inputs.now ≡ true) }
        requires claimed { (length claimed.now ≡ 2 ^ first_coins (circuit_seen circuit)) × (all_reduced field claimed.now ≡ true) }
        requires coins { (length coins.now ≡ first_coins (circuit_seen circuit)) × (all_reduced field coins.now ≡ true) }
        ensures stand { stand_of result ≡ start field (circuit_seen circuit.entry) claimed.now coins.now }
        ensures inputs { inputs_of result ≡ inputs.now }
    {
        let layers = circuit.layers();
        let copies = layers.copies() as usize;
        let size = layers.top_size() as usize;
        let total = extension_at::<Mersenne31>(claimed, coins);
        let copy = cut(coins, 0, copies);
        let point = cut(coins, copies, size);
        let shares = Shares {
            first: Share { factor: 1, point },
            second: None,
        };
        Verifier {
            layers,
            inputs,
            layer: 0,
            claim: Claim {
                copy,
                shares,
                total,
            },
            drawn: Drawn::new(),
            total,
        }
    }
}
