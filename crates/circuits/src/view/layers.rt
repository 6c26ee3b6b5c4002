// Layers from one of them down to the inputs.
// Taking off the first of them again and again walks down a circuit in one pass over its words.
ghost use Rattle.std.specs.Prelude.{◌≡◌, ◌+◌, ◌*◌, ◌^◌, ◌<◌, ◌≤◌, [], length, drop, slice_index_or, MatchOption};
ghost use Rattle.circuits.specs.Circuit.{size_below};
ghost use Rattle.circuits.specs.Split.{SplitsOff};
ghost use Rattle.circuits.specs.Views.{layers_seen, layer_seen, copies_above, inputs_below, places_below, no_layer};

use super::{LayerView, LayersView};
use crate::shape::{Layers, power};

impl<'a> LayersView<'a> {
    pub fn copies(self) -> u32
        ensures value { result ≡ copies_above self.entry }
        ensures limit { result ≤ 16 }
    {
        self.copies
    }

    pub fn inputs(self) -> u32
        ensures { result ≡ inputs_below self.entry }
    {
        self.inputs
    }

    pub fn count(self) -> u32
        ensures { result ≡ length (layers_seen self.entry) }
    {
        self.count
    }

    // The size of the first of these layers, or, where there is none, that of the inputs.
    pub fn top_size(self) -> u32
        ensures value { result ≡ size_below (layers_seen self.entry) (inputs_below self.entry) }
        ensures limit { copies_above self.entry + result ≤ 16 }
    {
        self.layers().top_size(self.inputs)
    }

    // How many values the first of these layers has, or the inputs where there is none, in all copies.
    pub fn value_count(self) -> usize
        ensures value { result ≡ 2 ^ copies_above self.entry * 2 ^ size_below (layers_seen self.entry) (inputs_below self.entry) }
        ensures limit { result ≤ 65536 }
    {
        power(self.copies + self.top_size())
    }

    // The words of these layers, without the size of the inputs.
    fn layers(self) -> Layers<'a>
        ensures copies { result.copies ≡ copies_above self.entry }
        ensures limit { result.copies + inputs_below self.entry ≤ 16 }
        ensures count { result.count ≡ self.entry.count }
        ensures words { result.words.now ≡ self.entry.words.now }
    {
        Layers {
            copies: self.copies,
            count: self.count,
            words: self.words,
        }
    }

    // The first of these layers and those below it, unless there is none.
    pub fn split_first(self) -> Option<(LayerView<'a>, LayersView<'a>)>
        ensures { MatchOption result (layers_seen self.entry ≡ []) (λ split. SplitsOff self.entry split.0 split.1) }
    {
        let (first, below) = self.layers().split_first()?;
        let layer = LayerView {
            size: first.size,
            below: below.top_size(self.inputs),
            words: first.gates,
        };
        let rest = LayersView {
            copies: self.copies,
            inputs: self.inputs,
            count: below.count,
            words: below.words,
        };
        Some((layer, rest))
    }

    // The first of these layers.
    pub fn first(self) -> LayerView<'a>
        requires { 0 < length (layers_seen self) }
        ensures layer { layer_seen result ≡ slice_index_or (layers_seen self.entry) 0 no_layer }
        ensures below { places_below result ≡ size_below (drop 1 (layers_seen self.entry)) (inputs_below self.entry) }
    {
        self.split_first().unwrap().0
    }

    // The layers below the first of these.
    pub fn rest(self) -> LayersView<'a>
        requires { 0 < length (layers_seen self) }
        ensures layers { layers_seen result ≡ drop 1 (layers_seen self.entry) }
        ensures copies { copies_above result ≡ copies_above self.entry }
        ensures inputs { inputs_below result ≡ inputs_below self.entry }
    {
        self.split_first().unwrap().1
    }
}
