// What `judge` holds before the first coin: circuit, inputs and claimed outputs, of which nothing is refused.
// A check gives the first refusal that applies, and who knows that none does needs no check; with the first coins it makes the verifier.
ghost use Rattle.std.specs.Prelude.{◌≡◌, ◌+◌, ◌^◌, ◌≤◌, true, length};
ghost use Rattle.arithmetic.specs.Numbers.{modulo, all_reduced};
ghost use Rattle.argument.specs.Argument.{first_coins};
ghost use Rattle.circuits.specs.Circuit.{output_size};
ghost use Rattle.circuits.specs.Views.{circuit_seen};
ghost use Rattle.circuits.specs.Words.{modulus, circuit_of, is_circuit};
ghost use Rattle.programs.specs.Known.{IsHeld};
ghost use Rattle.verdicts.specs.Machine.{start};
ghost use Rattle.verifier.specs.Meaning.{stand_of, inputs_of};

use arithmetic::mersenne::Mersenne31;
use circuits::{CircuitView, check_counts, check_reduced};
use claims::opening;
use refusals::Refusal;
use verifier::verifier::Verifier;

// No circuit has more first coins.
pub const MOST_FIRST_COINS: usize = 16;

#[derive(Clone, Copy)]
pub struct Held<'a, 'c> {
    circuit: CircuitView<'a>,
    inputs: &'a [u32],
    claimed: &'c [u32],
    ghost inputs_whole: { length inputs.now ≡ 2 ^ ((circuit_seen circuit).copies + (circuit_seen circuit).inputs) },
    ghost inputs_reduced: { all_reduced (modulo modulus) inputs.now ≡ true },
    ghost claimed_whole: { length claimed.now ≡ 2 ^ ((circuit_seen circuit).copies + output_size (circuit_seen circuit)) },
    ghost claimed_reduced: { all_reduced (modulo modulus) claimed.now ≡ true },
}

impl<'a, 'c> Held<'a, 'c> {
    ghost use Rattle.std.specs.Prelude.{MatchResult, IfOk};
    ghost use Rattle.circuits.specs.Views.{words_seen};
    ghost use Rattle.programs.specs.Held.{held_verdict, circuit_held, inputs_held, claimed_held};
    ghost use Rattle.refusals.specs.Refusals.{number_of};

    // Of words of which it is known that nothing is refused. They are not looked at again.
    pub fn new(circuit: CircuitView<'a>, inputs: &'a [u32], claimed: &'c [u32]) -> Held<'a, 'c>
        requires { IsHeld (words_seen circuit) inputs.now claimed.now }
        ensures circuit { circuit_held result ≡ words_seen circuit.entry }
        ensures inputs { inputs_held result ≡ inputs.now }
        ensures claimed { claimed_held result ≡ claimed.now }
    {
        Held {
            circuit,
            inputs,
            claimed,
        }
    }

    pub fn check(
        circuit: &'a [u32],
        inputs: &'a [u32],
        claimed: &'c [u32],
    ) -> Result<Held<'a, 'c>, Refusal>
        ensures held { IfOk result (λ held. (circuit_held held ≡ circuit.now) × (inputs_held held ≡ inputs.now) × (claimed_held held ≡ claimed.now)) }
        ensures verdict { MatchResult result (λ _. held_verdict circuit.now inputs.now claimed.now ≡ 0) (λ e. held_verdict circuit.now inputs.now claimed.now ≡ number_of e) }
    {
        let view = CircuitView::check(circuit)?;
        check_counts(view, inputs.len(), claimed.len())?;
        check_reduced::<Mersenne31>(inputs)?;
        check_reduced::<Mersenne31>(claimed)?;
        Ok(Held::new(view, inputs, claimed))
    }

    // How many coins choose the outputs' point.
    pub fn first_coins(self) -> usize
        ensures value { result ≡ first_coins (circuit_of (circuit_held self.entry)) }
        ensures limit { result ≤ 16 }
    {
        opening::first_coins(self.circuit)
    }

    // The verifier after the first coins, which keeps nothing of the claimed outputs.
    pub fn open(self, coins: &[u32]) -> Verifier<'a>
        requires coins { (length coins.now ≡ first_coins (circuit_of (circuit_held self))) × (all_reduced (modulo modulus) coins.now ≡ true) }
        ensures stand { stand_of result ≡ start (modulo modulus) (circuit_of (circuit_held self.entry)) (claimed_held self.entry) coins.now }
        ensures inputs { inputs_of result ≡ inputs_held self.entry }
    {
        Verifier::new(self.circuit, self.inputs, self.claimed, coins)
    }
}

// How many coins choose the outputs' point of words that are known to be a circuit's.
pub fn first_coins(circuit: &[u32]) -> usize
    requires { is_circuit circuit.now ≡ true }
    ensures value { result ≡ first_coins (circuit_of circuit.now) }
    ensures limit { result ≤ 16 }
{
    opening::first_coins(CircuitView::new(circuit))
}

// The verifier after the first coins, of words of which it is known that nothing is refused.
pub fn open_verifier<'a>(
    circuit: &'a [u32],
    inputs: &'a [u32],
    claimed: &[u32],
    coins: &[u32],
) -> Verifier<'a>
    requires held { IsHeld circuit.now inputs.now claimed.now }
    requires coins { (length coins.now ≡ first_coins (circuit_of circuit.now)) × (all_reduced (modulo modulus) coins.now ≡ true) }
    ensures stand { stand_of result ≡ start (modulo modulus) (circuit_of circuit.now) claimed.now coins.now }
    ensures inputs { inputs_of result ≡ inputs.now }
{
    Held::new(CircuitView::new(circuit), inputs, claimed).open(coins)
}
