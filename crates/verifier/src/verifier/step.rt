// A step: an answer that fits and the coin that fell for it lead on.
// After a variable the total is the polynomial's value at the coin; after the two values comes the layer below.
ghost use Rattle.std.specs.Prelude.{◌≡◌, ◌+◌, ◌<◌, ◌≤◌, true, length, slice_index};
ghost use Rattle.circuits.specs.Words.{modulus};
ghost use Rattle.argument.specs.Argument.{claim_below};
ghost use Rattle.verdicts.specs.Machine.{variables_of, size_under, point_c, point_x, point_y, fits, next};
ghost use Rattle.claims.specs.Meaning.{numbers as field, claim_meant};
ghost use Rattle.verifier.specs.Answers.{coin_answer, coin_word};
ghost use Rattle.verifier.specs.Meaning.{stand_of, inputs_of};

use super::Verifier;
use super::parts::Parts;
use crate::answer::Coin;
use arithmetic::cubic::cubic_at;
use arithmetic::mersenne::Mersenne31;
use arithmetic::modular::Modular;
use claims::claim::{Claim, Share, Shares};
use claims::cut::cut;
use claims::message::Message;

impl<'a> Verifier<'a> {
    // Shares 1 at x and the coin at y, and the total a + coin b, at the copies' point c.
    fn claim_below(&self, values: [u32; 2], coin: u32) -> Claim
        requires some { 0 < length (stand_of self.now).layers }
        requires done { variables_of (stand_of self.now) ≤ length (stand_of self.now).point }
        requires values { (slice_index values 0 < modulus) × (slice_index values 1 < modulus) }
        requires coin { coin < modulus }
        ensures { claim_meant (stand_of self.now).copies (size_under (stand_of self.now)) result ≡ claim_below field (point_c (stand_of self.now)) (point_x (stand_of self.now)) (point_y (stand_of self.now)) (slice_index values 0) (slice_index values 1) coin }
    {
        let Parts { copies, x, y } = self.parts();
        Claim {
            copy: cut(copies, 0, copies.len()),
            shares: Shares {
                first: Share {
                    factor: 1,
                    point: cut(x, 0, x.len()),
                },
                second: Some(Share {
                    factor: coin,
                    point: cut(y, 0, y.len()),
                }),
            },
            total: Mersenne31::add(values[0], Mersenne31::mul(coin, values[1])),
        }
    }

    pub fn step(&mut self, coin: Coin)
        requires some { 0 < length (stand_of self.old).layers }
        requires fits { fits field (stand_of self.old) (coin_answer coin) ≡ true }
        ensures stand { stand_of self.new ≡ next field (stand_of self.old) (coin_answer coin) (coin_word coin) }
        ensures inputs { inputs_of self.new ≡ inputs_of self.old }
    {
        let (message, word) = coin.spend();
        match message {
            Message::Round(values) => {
                let total = cubic_at::<Mersenne31>(values, word);
                *self = self.advanced(word, total);
            }
            Message::Values(values) => {
                let claim = self.claim_below(values, word);
                *self = self.descended(claim);
            }
        }
    }
}
