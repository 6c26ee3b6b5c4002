// Views of the words of a lawful circuit: the whole of it, the layers from one of them down, and a single layer.
// A view is made only from words that were found lawful, so that what it reads is always there.
ghost use Rattle.std.specs.Prelude.{◌≡◌, ◌*◌, ◌/◌, true, length};
ghost use Rattle.circuits.specs.Words.{is_circuit};
ghost use Rattle.circuits.specs.Parts.{are_layers, is_layer};

mod circuit;
mod layer;
mod layers;

#[derive(Clone, Copy)]
pub struct CircuitView<'a> {
    words: &'a [u32],
    ghost lawful: { is_circuit words.now ≡ true },
}

// The words of some layers of a circuit, from one of them down to the one above the inputs; perhaps none.
#[derive(Clone, Copy)]
pub struct LayersView<'a> {
    copies: u32,
    inputs: u32,
    count: u32,
    words: &'a [u32],
    ghost lawful: { are_layers copies inputs count words.now ≡ true },
}

// The words of the gates of one layer, with its size and that of what lies below it.
#[derive(Clone, Copy)]
pub struct LayerView<'a> {
    size: u32,
    below: u32,
    words: &'a [u32],
    ghost lawful: { is_layer size below words.now ≡ true },
}

// The gates of a layer that are still to come.
#[derive(Drop)]
pub struct Gates<'a> {
    words: &'a [u32],
    ghost whole: { 3 * (length words.now / 3) ≡ length words.now },
}
