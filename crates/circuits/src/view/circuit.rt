// The whole circuit: its numbers, and its layers from the outputs' one down.
// A view is made of words that a check has let pass, or that are known to be those of a circuit.
ghost use Rattle.std.specs.Prelude.{◌≡◌, ◌+◌, ◌^◌, ◌≤◌, true, IfOk};
ghost use Rattle.circuits.specs.Circuit.{output_size};
ghost use Rattle.refusals.specs.Refusals.{RefusedUnless};
ghost use Rattle.circuits.specs.Views.{words_seen, circuit_seen, layers_seen, copies_above, inputs_below};
ghost use Rattle.circuits.specs.Words.{is_circuit};

use super::{CircuitView, LayersView};
use crate::limits::{MOST_BITS, MOST_LAYERS, MOST_WORDS};
use crate::shape::{Layers, power};
use refusals::Refusal;

fn is_circuit(words: &[u32]) -> bool
    ensures { result ≡ is_circuit words.now }
{
    if words.len() > MOST_WORDS {
        return false;
    }
    let Some((&[copies, inputs, count], layers)) = words.split_first_chunk::<3>() else {
        return false;
    };
    if copies > MOST_BITS || inputs > MOST_BITS - copies {
        return false;
    }
    if count < 1 || count > MOST_LAYERS {
        return false;
    }
    match Layers::check(copies, count, layers) {
        Some(layers) => layers.fit(inputs),
        None => false,
    }
}

impl<'a> CircuitView<'a> {
    // Of words that are known to be those of a lawful circuit, which are not looked at again.
    pub fn new(words: &'a [u32]) -> CircuitView<'a>
        requires { is_circuit words.now ≡ true }
        ensures { words_seen result ≡ words.now }
    {
        CircuitView { words }
    }

    // Of the words of a lawful circuit; all others are refused.
    pub fn check(words: &'a [u32]) -> Result<CircuitView<'a>, Refusal>
        ensures refused { RefusedUnless (is_circuit words.now) Refusal.NoCircuit result }
        ensures seen { IfOk result (λ view. words_seen view ≡ words.now) }
    {
        if is_circuit(words) {
            Ok(CircuitView::new(words))
        } else {
            Err(Refusal::NoCircuit)
        }
    }

    pub fn copies(self) -> u32
        ensures { result ≡ (circuit_seen self.entry).copies }
    {
        self.words[0]
    }

    pub fn inputs(self) -> u32
        ensures value { result ≡ (circuit_seen self.entry).inputs }
        ensures limit { (circuit_seen self.entry).copies + result ≤ 16 }
    {
        self.words[1]
    }

    // How many inputs it takes, in all copies.
    pub fn input_count(self) -> usize
        ensures value { result ≡ 2 ^ ((circuit_seen self.entry).copies + (circuit_seen self.entry).inputs) }
        ensures limit { result ≤ 65536 }
    {
        power(self.copies() + self.inputs())
    }

    // How many outputs it gives, in all copies.
    pub fn output_count(self) -> usize
        ensures value { result ≡ 2 ^ ((circuit_seen self.entry).copies + output_size (circuit_seen self.entry)) }
        ensures limit { result ≤ 65536 }
    {
        let layers = self.layers();
        power(layers.copies() + layers.top_size())
    }

    // All its layers, the outputs' one first.
    pub fn layers(self) -> LayersView<'a>
        ensures layers { layers_seen result ≡ (circuit_seen self.entry).layers }
        ensures copies { copies_above result ≡ (circuit_seen self.entry).copies }
        ensures inputs { inputs_below result ≡ (circuit_seen self.entry).inputs }
    {
        let (&[copies, inputs, count], words) = self.words.split_first_chunk::<3>().unwrap();
        LayersView {
            copies,
            inputs,
            count,
            words,
        }
    }
}
