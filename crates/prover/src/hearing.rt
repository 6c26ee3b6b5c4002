// A coin leads a prover on in four quarters that are lent: within a layer, or from its two values to the layer below.
// Whoever holds them in the struct of the four calls the prover itself.
ghost use Rattle.std.specs.Prelude.{◌≡◌, ◌<◌, [], length};
ghost use Rattle.circuits.specs.Words.{modulus};
ghost use Rattle.phases.specs.Standing.{Rooms};
ghost use Rattle.prover.specs.Provers.{StandsIn, Alike, Heard, history, coins_left};

use crate::prover::HonestProver;

// Begins a layer, of which no coin is drawn yet.
pub fn begin<'a>(
    mut prover: HonestProver<'a>,
    v: &mut [u32],
    w: &mut [u32],
    h: &mut [u32],
    j: &mut [u32],
) -> HonestProver<'a>
    requires none { history prover ≡ [] }
    requires rooms { (Rooms v.old w.old h.old) × (length j.old ≡ 65536) }
    ensures alike { Alike prover.entry result }
    ensures stands { StandsIn 0 0 result v.new w.new h.new j.new }
{
    prover.begin(v, w, h, j);
    prover
}

// Takes any coin but the last one, after which nothing is answered.
pub fn hear<'a>(
    mut prover: HonestProver<'a>,
    coin: u32,
    v: &mut [u32],
    w: &mut [u32],
    h: &mut [u32],
    j: &mut [u32],
) -> HonestProver<'a>
    requires stands { StandsIn 0 0 prover v.old w.old h.old j.old }
    requires more { 1 < coins_left prover }
    requires coin { coin < modulus }
    ensures heard { Heard coin prover.entry result }
    ensures stands { StandsIn 0 0 result v.new w.new h.new j.new }
{
    prover.hear_in(coin, v, w, h, j);
    prover
}
