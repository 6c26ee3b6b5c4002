// The prover at the outputs' layer: the first coins are the point of the claim about it.
// What the outputs are there is of no account to it.
ghost use Rattle.std.specs.Prelude.{◌≡◌, ◌+◌, ◌^◌, ◌≤◌, true, length};
ghost use Rattle.arithmetic.specs.Numbers.{modulo, all_reduced};
ghost use Rattle.argument.specs.Argument.{first_coins};
ghost use Rattle.circuits.specs.Values.{EachBelow};
ghost use Rattle.circuits.specs.Views.{circuit_seen};
ghost use Rattle.circuits.specs.Words.{modulus};
ghost use Rattle.prover.specs.Provers.{Opened};

use crate::prover::HonestProver;
use circuits::CircuitView;
use claims::claim::{Share, Shares};
use claims::cut::cut;

pub fn open<'a>(circuit: CircuitView<'a>, inputs: &'a [u32], coins: &[u32]) -> HonestProver<'a>
    requires inputs { (length inputs.now ≡ 2 ^ ((circuit_seen circuit).copies + (circuit_seen circuit).inputs)) × (EachBelow modulus inputs.now) }
    requires coins { (first_coins (circuit_seen circuit) ≤ length coins.now) × (all_reduced (modulo modulus) coins.now ≡ true) }
    ensures { Opened (circuit_seen circuit.entry) inputs.now coins.now result }
{
    let layers = circuit.layers();
    let copies = layers.copies() as usize;
    let size = layers.top_size() as usize;
    let shares = Shares {
        first: Share {
            factor: 1,
            point: cut(coins, copies, size),
        },
        second: None,
    };
    HonestProver::at(layers, inputs, cut(coins, 0, copies), shares)
}
