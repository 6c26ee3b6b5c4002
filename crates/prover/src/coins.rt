// A coin of a layer's variables: the tables of the part that it belongs to are halved, and the point grows by it.
// The tables of the part that then begins are not made yet.
ghost use Rattle.std.specs.Prelude.{◌≡◌, ◌<◌, length};
ghost use Rattle.circuits.specs.Words.{modulus};
ghost use Rattle.prover.specs.Provers.{StandsIn, Pushed, history, variables_of};

use crate::prover::HonestProver;

pub fn take_coin<'a>(
    mut prover: HonestProver<'a>,
    coin: u32,
    v: &mut [u32],
    w: &[u32],
    h: &mut [u32],
    j: &mut [u32],
) -> HonestProver<'a>
    requires stands { StandsIn 0 0 prover v.old w.now h.old j.old }
    requires more { length (history prover) < variables_of prover }
    requires coin { coin < modulus }
    ensures pushed { Pushed coin prover.entry result }
    ensures stands { StandsIn 1 1 result v.new w.now h.new j.new }
{
    prover.take_coin(coin, v, w, h, j);
    prover
}
