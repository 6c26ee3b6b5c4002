// Whether the answer that the honest prover is about to give is its last.
// After the last coin nothing is answered.
ghost use Rattle.std.specs.Prelude.{◌≡◌, ◌==◌};
ghost use Rattle.prover.specs.Provers.{coins_left};

use prover::due::Due;
use prover::prover::HonestProver;

pub fn is_last(prover: &HonestProver) -> bool
    ensures { result ≡ (coins_left prover.now == 1) }
{
    // By `matches!`: from the derived `==` with `Due::Values` the proof did not get which part is due.
    prover.layers_below() == 0 && matches!(prover.due(), Due::Values)
}
