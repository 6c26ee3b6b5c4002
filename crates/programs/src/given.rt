// What `house` is given before the first coin: circuit and inputs, of which nothing is refused.
// A check gives the first refusal that applies, and who knows that none does needs no check; with the first coins it makes the prover.
ghost use Rattle.std.specs.Prelude.{◌≡◌, ℕ, ◌+◌, ◌^◌, true, List, ◌++◌, length, take};
ghost use Rattle.arithmetic.specs.Numbers.{modulo, all_reduced};
ghost use Rattle.argument.specs.Argument.{first_coins};
ghost use Rattle.argument.specs.Honest.{honest};
ghost use Rattle.circuits.specs.Views.{circuit_seen};
ghost use Rattle.circuits.specs.Words.{modulus, circuit_of};
ghost use Rattle.programs.specs.Known.{IsGiven};
ghost use Rattle.phases.specs.References.{SameReferences};
ghost use Rattle.phases.specs.Standing.{Rooms};
ghost use Rattle.prover.specs.Provers.{Stands, StandsIn, speaks};

use arithmetic::mersenne::Mersenne31;
use circuits::{CircuitView, check_counts, check_reduced};
use claims::opening::first_coins;
use phases::quarters::Tables;
use prover::hearing::begin;
use prover::opening::open;
use prover::prover::HonestProver;
use refusals::Refusal;

#[derive(Clone, Copy)]
pub struct Given<'a> {
    circuit: CircuitView<'a>,
    inputs: &'a [u32],
    ghost inputs_whole: { length inputs.now ≡ 2 ^ ((circuit_seen circuit).copies + (circuit_seen circuit).inputs) },
    ghost inputs_reduced: { all_reduced (modulo modulus) inputs.now ≡ true },
}

impl<'a> Given<'a> {
    ghost use Rattle.std.specs.Prelude.{◌≤◌, MatchResult, IfOk};
    ghost use Rattle.circuits.specs.Circuit.{output_size};
    ghost use Rattle.circuits.specs.Views.{words_seen};
    ghost use Rattle.circuits.specs.Words.{run_verdict};
    ghost use Rattle.programs.specs.Held.{circuit_given, inputs_given};
    ghost use Rattle.refusals.specs.Refusals.{number_of};

    // Of words of which it is known that nothing is refused. They are not looked at again.
    pub fn new(circuit: CircuitView<'a>, inputs: &'a [u32]) -> Given<'a>
        requires { IsGiven (words_seen circuit) inputs.now }
        ensures circuit { circuit_given result ≡ words_seen circuit.entry }
        ensures inputs { inputs_given result ≡ inputs.now }
    {
        Given { circuit, inputs }
    }

    pub fn check(circuit: &'a [u32], inputs: &'a [u32]) -> Result<Given<'a>, Refusal>
        ensures given { IfOk result (λ given. (circuit_given given ≡ circuit.now) × (inputs_given given ≡ inputs.now)) }
        ensures verdict { MatchResult result (λ _. run_verdict circuit.now inputs.now (2 ^ ((circuit_of circuit.now).copies + output_size (circuit_of circuit.now))) ≡ 0) (λ e. run_verdict circuit.now inputs.now (2 ^ ((circuit_of circuit.now).copies + output_size (circuit_of circuit.now))) ≡ number_of e) }
    {
        let view = CircuitView::check(circuit)?;
        check_counts(view, inputs.len(), view.output_count())?;
        check_reduced::<Mersenne31>(inputs)?;
        Ok(Given::new(view, inputs))
    }

    // How many coins choose the outputs' point.
    pub fn first_coins(self) -> usize
        ensures value { result ≡ first_coins (circuit_of (circuit_given self.entry)) }
        ensures limit { result ≤ 16 }
    {
        first_coins(self.circuit)
    }

    // The prover after the first coins, at its first answer, in four tables that are lent.
    pub fn open(self, coins: &[u32], tables: &mut Tables) -> HonestProver<'a>
        requires coins { (length coins.now ≡ first_coins (circuit_of (circuit_given self))) × (all_reduced (modulo modulus) coins.now ≡ true) }
        ensures says { (later : List ℕ) → speaks result later ≡ honest (modulo modulus) (circuit_of (circuit_given self.entry)) (inputs_given self.entry) (take (first_coins (circuit_of (circuit_given self.entry))) coins.now ++ later) }
        ensures stands { Stands 0 0 result tables.new }
        ensures same_references { SameReferences tables.old tables.new }
    {
        HonestProver::open(self.circuit, self.inputs, coins, tables)
    }
}

// The prover after the first coins, of words of which it is known that nothing is refused, in four tables that are lent.
pub fn open_prover<'a>(
    circuit: &'a [u32],
    inputs: &'a [u32],
    coins: &[u32],
    v: &mut [u32],
    w: &mut [u32],
    h: &mut [u32],
    j: &mut [u32],
) -> HonestProver<'a>
    requires given { IsGiven circuit.now inputs.now }
    requires rooms { (Rooms v.old w.old h.old) × (length j.old ≡ 65536) }
    requires coins { (length coins.now ≡ first_coins (circuit_of circuit.now)) × (all_reduced (modulo modulus) coins.now ≡ true) }
    ensures says { (later : List ℕ) → speaks result later ≡ honest (modulo modulus) (circuit_of circuit.now) inputs.now (take (first_coins (circuit_of circuit.now)) coins.now ++ later) }
    ensures stands { StandsIn 0 0 result v.new w.new h.new j.new }
{
    begin(open(CircuitView::new(circuit), inputs, coins), v, w, h, j)
}
