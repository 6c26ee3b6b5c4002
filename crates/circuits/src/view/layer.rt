// One layer: its size, that of what lies below it, and its gates by their places.
// Each gate takes places that are there in what lies below.
ghost use Rattle.std.specs.Prelude.{◌≡◌, ◌+◌, ◌*◌, ◌^◌, ◌<◌, ◌≤◌, length, slice_index_or};
ghost use Rattle.circuits.specs.Parts.{gate_at};
ghost use Rattle.std.specs.Iterator.{YieldsFirstBy, YieldsLastBy, item_count};
ghost use Rattle.circuits.specs.Views.{gates_seen, gates_left, size_seen, places_below, gate_meant, kind_meant, no_gate};
ghost use Rattle.circuits.specs.Words.{kind_of};

use super::{Gates, LayerView};
use crate::gate::{Gate, Kind};
use crate::shape::power;

// No word but 0 and 1 stands there in a circuit, so that the conversion that can fail would be no plainer here.
fn kind_of(word: u32) -> Kind
    ensures { kind_meant result ≡ kind_of word }
{
    match word {
        1 => Kind::Product,
        _ => Kind::Sum,
    }
}

fn read_gate(words: &[u32], place: usize) -> Gate
    requires { 3 * place + 2 < length words.now }
    ensures { gate_meant result ≡ gate_at words.now place }
{
    let first = 3 * place;
    Gate {
        kind: kind_of(words[first]),
        left: words[first + 1] as usize,
        right: words[first + 2] as usize,
    }
}

impl<'a> LayerView<'a> {
    pub fn size(self) -> u32
        ensures value { result ≡ size_seen self.entry }
        ensures limit { result ≤ 16 }
    {
        self.size
    }

    // The size of what lies below.
    pub fn size_below(self) -> u32
        ensures value { result ≡ places_below self.entry }
        ensures limit { result ≤ 16 }
    {
        self.below
    }

    pub fn gate_count(self) -> usize
        ensures value { result ≡ 2 ^ size_seen self.entry }
        ensures limit { result ≤ 65536 }
    {
        power(self.size)
    }

    pub fn gate(self, place: usize) -> Gate
        requires { place < 2 ^ size_seen self }
        ensures value { gate_meant result ≡ slice_index_or (gates_seen self.entry) place no_gate }
        ensures left { result.left < 2 ^ places_below self.entry }
        ensures right { result.right < 2 ^ places_below self.entry }
    {
        read_gate(self.words, place)
    }

    // Its gates one after the other.
    pub fn gates(self) -> Gates<'a>
        ensures { gates_left result ≡ gates_seen self.entry }
    {
        Gates { words: self.words }
    }
}

impl<'a> Iterator for Gates<'a> {
    type Item = Gate;

    ghost next_gives = { YieldsFirstBy gate_meant gates_left };

    ghost remaining = { item_count gates_left };

    fn next(&mut self) -> Option<Gate> {
        let (first, rest) = self.words.split_first_chunk::<3>()?;
        self.words = rest;
        Some(read_gate(first, 0))
    }
}

impl<'a> DoubleEndedIterator for Gates<'a> {
    ghost next_back_gives = { YieldsLastBy gate_meant gates_left };

    fn next_back(&mut self) -> Option<Gate> {
        let (others, last) = self.words.split_last_chunk::<3>()?;
        self.words = others;
        Some(read_gate(last, 0))
    }
}
