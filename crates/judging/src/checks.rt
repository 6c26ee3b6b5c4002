// What a call's words have to be before the verifier begins: a circuit, as many words as it takes, and numbers.
// The refusals come in the order of their numbers.
ghost use Rattle.std.specs.Prelude.{◌≡◌, ◌≤◌, length, MatchResult};
ghost use Rattle.refusals.specs.Refusals.{RefusedUnless, number_of};
ghost use Rattle.circuits.specs.Views.{words_seen, circuit_seen, layers_seen, copies_above, inputs_below};
ghost use Rattle.argument.specs.Argument.{layer_coins};
ghost use Rattle.argument.specs.Transcript.{layer_words, judged};
ghost use Rattle.judging.specs.Checks.{lengths_fit, Checked, checked, judged_so};

use crate::call::Transcript;
use arithmetic::mersenne::Mersenne31;
use circuits::{CircuitView, LayersView, check_counts, check_reduced};
pub use claims::opening::first_coins;
use refusals::Refusal;

// How many words the answers take for some layers, and how many coins fall for them.
#[derive(Clone, Copy)]
struct Lengths {
    words: usize,
    coins: usize,
}

fn measure(layers: LayersView) -> Lengths
    requires { length (layers_seen layers) ≤ 32 }
    ensures words { result.words ≡ layer_words (copies_above layers.entry) (layers_seen layers.entry) (inputs_below layers.entry) }
    ensures coins { result.coins ≡ layer_coins (copies_above layers.entry) (layers_seen layers.entry) (inputs_below layers.entry) }
    ensures limit { result.coins ≤ 1056 }
{
    let mut rest = layers;
    let mut words = 0;
    let mut coins = 0;
    while let Some((_, below)) = rest.split_first() {
        let variables = below.copies() as usize + 2 * below.top_size() as usize;
        words += 4 * variables + 2;
        coins += variables + 1;
        rest = below;
    }
    Lengths { words, coins }
}

pub fn check_lengths(circuit: CircuitView, words: usize, coins: usize) -> Result<(), Refusal>
    ensures { RefusedUnless (lengths_fit (circuit_seen circuit.entry) words coins) Refusal.WrongCount result }
{
    let layers = measure(circuit.layers());
    if words == layers.words && coins == first_coins(circuit) + layers.coins {
        Ok(())
    } else {
        Err(Refusal::WrongCount)
    }
}

impl<'a> Transcript<'a> {
    // The circuit, or the first refusal that applies before anything is judged.
    pub fn check(self) -> Result<CircuitView<'a>, Refusal>
        ensures { MatchResult result (λ view. (words_seen view ≡ self.entry.circuit.now) × checked self.entry) (λ e. number_of e ≡ judged_so self.entry) }
    {
        let view = CircuitView::check(self.circuit)?;
        check_counts(view, self.inputs.len(), self.claimed.len())?;
        check_lengths(view, self.messages.len(), self.coins.len())?;
        check_reduced::<Mersenne31>(self.inputs)?;
        check_reduced::<Mersenne31>(self.claimed)?;
        check_reduced::<Mersenne31>(self.messages)?;
        check_reduced::<Mersenne31>(self.coins)?;
        Ok(view)
    }
}

// The same of words that are lent one by one.
pub fn check_all(
    circuit: &[u32],
    inputs: &[u32],
    claimed: &[u32],
    messages: &[u32],
    coins: &[u32],
) -> Result<(), Refusal>
    ensures { MatchResult result (λ _. Checked circuit.now inputs.now claimed.now messages.now coins.now) (λ e. number_of e ≡ judged circuit.now inputs.now claimed.now messages.now coins.now) }
{
    let transcript = Transcript {
        circuit,
        inputs,
        claimed,
        messages,
        coins,
    };
    transcript.check()?;
    Ok(())
}
