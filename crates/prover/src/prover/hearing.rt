// A coin leads the prover on: within a layer, or from its two values to the layer below.
// Where all coins of a layer are drawn, its point becomes the claim about the layer below.
ghost use Rattle.std.specs.Prelude.{◌≡◌, ◌<◌, [], ◌∷◌, ◌++◌, length};
ghost use Rattle.circuits.specs.Views.{layers_seen};
ghost use Rattle.circuits.specs.Words.{modulus};
ghost use Rattle.phases.specs.References.{SameReferences};
ghost use Rattle.prover.specs.Provers.{Stands, StandsIn, SameLayer, Heard, history, rest_of, variables_of, coins_left};

use super::HonestProver;
use crate::due::Due;
use claims::claim::{Share, Shares};
use claims::cut::cut;
use phases::quarters::Tables;

impl<'a> HonestProver<'a> {
    // What is asked of the layer below: shares 1 at x and the coin at y, at the copies' coins.
    fn below(&self, coin: u32) -> HonestProver<'a>
        requires all { length (history self.now) ≡ variables_of self.now }
        requires some { 0 < length (layers_seen (rest_of self.now)) }
        requires coin { coin < modulus }
        ensures heard { Heard coin self.now result }
        ensures none { history result ≡ [] }
    {
        let point = self.drawn.as_slice();
        let x = self.start_of_x();
        let y = self.start_of_y();
        let shares = Shares {
            first: Share {
                factor: 1,
                point: cut(point, x, y - x),
            },
            second: Some(Share {
                factor: coin,
                point: cut(point, y, y - x),
            }),
        };
        HonestProver::at(self.rest, self.inputs, cut(point, 0, x), shares)
    }

    // Takes any coin but the last one, after which nothing is answered.
    pub fn hear(&mut self, coin: u32, tables: &mut Tables)
        requires stands { Stands 0 0 self.old tables.old }
        requires more { 1 < coins_left self.old }
        requires coin { coin < modulus }
        ensures heard { Heard coin self.old self.new }
        ensures drawn { length (history self.old) < variables_of self.old → (history self.new ≡ history self.old ++ coin ∷ []) × SameLayer self.old self.new }
        ensures stands { Stands 0 0 self.new tables.new }
        ensures same_references { SameReferences tables.old tables.new }
    {
        self.hear_in(coin, tables.v, tables.w, tables.h, tables.j);
    }

    // The same in four quarters that are lent.
    pub(crate) fn hear_in(
        &mut self,
        coin: u32,
        v: &mut [u32],
        w: &mut [u32],
        h: &mut [u32],
        j: &mut [u32],
    )
        requires stands { StandsIn 0 0 self.old v.old w.old h.old j.old }
        requires more { 1 < coins_left self.old }
        requires coin { coin < modulus }
        ensures heard { Heard coin self.old self.new }
        ensures drawn { length (history self.old) < variables_of self.old → (history self.new ≡ history self.old ++ coin ∷ []) × SameLayer self.old self.new }
        ensures stands { StandsIn 0 0 self.new v.new w.new h.new j.new }
    {
        match self.due() {
            Due::Values => {
                *self = self.below(coin);
                self.begin(v, w, h, j);
            }
            _ => {
                self.take_coin(coin, v, w, h, j);
                self.settle(v, w, h, j);
            }
        }
    }
}
