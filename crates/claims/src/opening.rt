// Where an argument begins: the first coins choose a point of the outputs' polynomial.
// It has a coordinate for each bit of a copy's number and of a place in the outputs' layer.
ghost use Rattle.std.specs.Prelude.{◌≡◌, ◌≤◌};
ghost use Rattle.circuits.specs.Views.{circuit_seen};
ghost use Rattle.argument.specs.Argument.{first_coins};

use circuits::CircuitView;

// How many coins choose the outputs' point.
pub fn first_coins(circuit: CircuitView) -> usize
    ensures value { result ≡ first_coins (circuit_seen circuit.entry) }
    ensures limit { result ≤ 16 }
{
    let layers = circuit.layers();
    layers.copies() as usize + layers.top_size() as usize
}
