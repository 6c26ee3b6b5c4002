// How much room a circuit's outputs take, which a caller of `run` has to lend.
// Words that are no circuit have no outputs, and are refused as `run` refuses them.
ghost use Rattle.std.specs.Prelude.{◌≡◌, ◌+◌, ◌^◌, true, false, MatchResult};
ghost use Rattle.circuits.specs.Circuit.{output_size};
ghost use Rattle.circuits.specs.Words.{circuit_of, is_circuit};
ghost use Rattle.refusals.specs.Refusals.{number_of};

use circuits::CircuitView;
use refusals::Refusal;

pub fn outputs_len(circuit: &[u32]) -> Result<usize, Refusal>
    ensures { MatchResult result (λ n. n ≡ 2 ^ ((circuit_of circuit.now).copies + output_size (circuit_of circuit.now))) (λ e. (number_of e ≡ 1) × (is_circuit circuit.now ≡ false)) }
{
    Ok(CircuitView::check(circuit)?.output_count())
}
