// The verifier: where it stands between two answers.
// Its methods are in the modules below; specs/Meaning.antt says which stand of the machine a verifier is at.
ghost use Rattle.std.specs.Prelude.{◌≡◌, ◌+◌, ◌^◌, ◌<◌, ◌≤◌, true, length};
ghost use Rattle.arithmetic.specs.Numbers.{modulo, all_reduced};
ghost use Rattle.circuits.specs.Views.{layers_seen, copies_above, inputs_below};
ghost use Rattle.circuits.specs.Words.{modulus};
ghost use Rattle.verdicts.specs.Machine.{variables};
ghost use Rattle.claims.specs.Drawing.{coins_drawn};

use circuits::LayersView;
use claims::claim::Claim;
use claims::drawn::Drawn;

mod due;
mod expect;
mod moves;
mod parts;
mod read;
mod settle;
mod start;
mod step;

// That a layer is left stands in clauses: with a type for such a stand each test of `at_inputs` would be a match, no plainer.
#[derive(Drop)]
pub struct Verifier<'a> {
    // this layer and those below it
    layers: LayersView<'a>,
    inputs: &'a [u32],
    // how many layers are done
    layer: usize,
    claim: Claim,
    // the coins of this layer's variables so far
    drawn: Drawn,
    // what is claimed of the sum over the corners that are left
    total: u32,
    ghost inputs_whole: { length inputs.now ≡ 2 ^ (copies_above layers + inputs_below layers) },
    ghost inputs_reduced: { all_reduced (modulo modulus) inputs.now ≡ true },
    ghost numbered: { layer + length (layers_seen layers) ≤ 32 },
    ghost within: { length (coins_drawn drawn) ≤ variables (copies_above layers) (inputs_below layers) (layers_seen layers) },
    ghost total_reduced: { total < modulus },
}
