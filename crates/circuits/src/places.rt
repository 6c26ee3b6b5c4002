// Layers one after the other, and whether their gates take only places that are there in the layer below.
// It is asked only of words that have the shape of layers, so that each layer can be split off.
ghost use Rattle.std.specs.Prelude.{◌≡◌, ◌+◌, ◌/◌, ◌≤◌, length, MatchOption};
ghost use Rattle.circuits.specs.Circuit.{gates_fit, layers_fit, size_below};
ghost use Rattle.circuits.specs.Split.{SplitOff};
ghost use Rattle.circuits.specs.Words.{gates_of, layers_of};

use crate::shape::{Layers, power};

// The size of a layer, and the words of its gates.
#[derive(Clone, Copy)]
pub struct Layer<'a> {
    pub size: u32,
    pub gates: &'a [u32],
}

fn gates_fit(places: usize, words: &[u32]) -> bool
    ensures { result ≡ gates_fit places (gates_of (length words.now / 3) words.now) }
{
    let (gates, _) = words.as_chunks::<3>();
    gates.iter().all(|[_, left, right]| { (*left as usize) < places && (*right as usize) < places })
}

impl<'a> Layers<'a> {
    // The first of these layers and those below it, unless there is none.
    pub fn split_first(self) -> Option<(Layer<'a>, Layers<'a>)>
        ensures { MatchOption result (self.entry.count ≡ 0) (λ split. SplitOff self.entry.copies self.entry.count self.entry.words.now split.0 split.1) }
    {
        if self.count == 0 {
            return None;
        }
        let size = self.words[0];
        let end = 1 + 3 * power(size);
        let first = Layer {
            size,
            gates: &self.words[1..end],
        };
        let below = Layers {
            copies: self.copies,
            count: self.count - 1,
            words: &self.words[end..],
        };
        Some((first, below))
    }

    // The size of the first of these layers, or, where there is none, that of the inputs.
    pub fn top_size(self, inputs: u32) -> u32
        requires { self.copies + inputs ≤ 16 }
        ensures size { result ≡ size_below (layers_of self.entry.count self.entry.words.now) inputs }
        ensures limit { self.entry.copies + result ≤ 16 }
    {
        match self.split_first() {
            Some((first, _)) => first.size,
            None => inputs,
        }
    }

    // Whether each gate takes places that are there.
    pub fn fit(self, inputs: u32) -> bool
        requires { self.copies + inputs ≤ 16 }
        ensures { result ≡ layers_fit (layers_of self.entry.count self.entry.words.now) inputs }
    {
        let mut rest = self;
        while let Some((first, below)) = rest.split_first() {
            if !gates_fit(power(below.top_size(inputs)), first.gates) {
                return false;
            }
            rest = below;
        }
        true
    }
}
