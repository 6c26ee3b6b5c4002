// What is asked of inputs and outputs before anything is worked out or argued about: how many there are, and that they are numbers.
// Each check refuses by the refusal of its kind.
ghost use Rattle.std.specs.Prelude.{◌≡◌, ◌+◌, ◌^◌, ◌&&◌, ◌==◌};
ghost use Rattle.arithmetic.specs.Numbers.{modulo, all_reduced};
ghost use Rattle.circuits.specs.Circuit.{output_size};
ghost use Rattle.refusals.specs.Refusals.{RefusedUnless};
ghost use Rattle.circuits.specs.Views.{circuit_seen};

use crate::view::CircuitView;
use arithmetic::modular::Modular;
use refusals::Refusal;

fn refuse_unless(holds: bool, refusal: Refusal) -> Result<(), Refusal>
    ensures { RefusedUnless holds refusal result }
{
    if holds { Ok(()) } else { Err(refusal) }
}

pub fn check_counts(circuit: CircuitView, inputs: usize, outputs: usize) -> Result<(), Refusal>
    ensures { RefusedUnless (inputs == 2 ^ ((circuit_seen circuit.entry).copies + (circuit_seen circuit.entry).inputs) && outputs == 2 ^ ((circuit_seen circuit.entry).copies + output_size (circuit_seen circuit.entry))) Refusal.WrongCount result }
{
    let fit = inputs == circuit.input_count() && outputs == circuit.output_count();
    refuse_unless(fit, Refusal::WrongCount)
}

fn all_reduced<M: Modular>(words: &[u32]) -> bool
    ensures { result ≡ all_reduced (modulo M.modulus) words.now }
{
    words.iter().all(|word| M::is_reduced(*word))
}

pub fn check_reduced<M: Modular>(words: &[u32]) -> Result<(), Refusal>
    ensures { RefusedUnless (all_reduced (modulo M.modulus) words.now) Refusal.NotReduced result }
{
    refuse_unless(all_reduced::<M>(words), Refusal::NotReduced)
}
