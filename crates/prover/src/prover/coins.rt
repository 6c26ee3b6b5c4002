// A coin of a layer's variables: the tables of the part that it belongs to are halved, and the point grows by it.
// The tables of the part that then begins are not made yet.
ghost use Rattle.std.specs.Prelude.{◌≡◌, ◌<◌, [], ◌∷◌, ◌++◌, length};
ghost use Rattle.circuits.specs.Words.{modulus};
ghost use Rattle.prover.specs.Provers.{StandsIn, PartsAt, Pushed, history, variables_of};

use super::HonestProver;
use crate::due::Due;
use arithmetic::mersenne::Mersenne31;
use phases::turns::{copy_coin, product_coin};

impl<'a> HonestProver<'a> {
    // The tables of the part that is due, halved by a coin that is not among the coins yet.
    fn halve(&self, coin: u32, v: &mut [u32], w: &[u32], h: &mut [u32], j: &mut [u32])
        requires stands { StandsIn 0 0 self.now v.old w.now h.old j.old }
        requires more { length (history self.now) < variables_of self.now }
        requires coin { coin < modulus }
        ensures { PartsAt 1 1 self.now (history self.now ++ coin ∷ []) v.new w.now h.new j.new }
    {
        match self.due() {
            Due::Copies(left) => copy_coin::<Mersenne31>(self.layer, left, coin, v, h),
            Due::Left(left) | Due::Right(left) => {
                product_coin::<Mersenne31>(left, coin, v, h, j)
            }
            Due::Values => unreachable!(),
        }
    }

    pub(crate) fn take_coin(
        &mut self,
        coin: u32,
        v: &mut [u32],
        w: &[u32],
        h: &mut [u32],
        j: &mut [u32],
    )
        requires stands { StandsIn 0 0 self.old v.old w.now h.old j.old }
        requires more { length (history self.old) < variables_of self.old }
        requires coin { coin < modulus }
        ensures pushed { Pushed coin self.old self.new }
        ensures stands { StandsIn 1 1 self.new v.new w.now h.new j.new }
    {
        self.halve(coin, v, w, h, j);
        self.drawn.push(coin);
    }
}
