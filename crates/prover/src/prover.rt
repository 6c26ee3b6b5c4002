// The honest prover between two answers: the layer that is argued about, what is asked of it, and the coins so far.
// Its tables lie in four lent quarters; specs/Provers.antt says what they hold, and what the prover says from here on.
ghost use Rattle.std.specs.Prelude.{◌≡◌, ◌+◌, ◌*◌, ◌^◌, ◌≤◌, true, length};
ghost use Rattle.arithmetic.specs.Numbers.{modulo, all_reduced};
ghost use Rattle.circuits.specs.Circuit.{size_below};
ghost use Rattle.circuits.specs.Values.{EachBelow};
ghost use Rattle.circuits.specs.Views.{layers_seen, copies_above, inputs_below, size_seen, places_below};
ghost use Rattle.circuits.specs.Words.{modulus};
ghost use Rattle.claims.specs.Drawing.{coins_drawn};

use circuits::{LayerView, LayersView};
use claims::claim::Shares;
use claims::cut::MOST_COORDINATES;
use claims::drawn::Drawn;

mod coins;
mod hearing;
mod opening;
mod place;
mod saying;
mod settling;

#[derive(Clone, Copy)]
pub struct HonestProver<'a> {
    pub layer: LayerView<'a>,
    // the layers below this one
    pub rest: LayersView<'a>,
    pub inputs: &'a [u32],
    // the copies' point of the claim about this layer, and its shares
    pub copy: [u32; MOST_COORDINATES],
    pub shares: Shares,
    // the coins of this layer's variables so far
    pub drawn: Drawn,
    // eq of the copies' point at the copies' coins, once these are drawn; no `Option`, as the coins say already whether they are
    pub factor: u32,
    // the value below at x, once x is drawn
    pub at_x: u32,
    ghost below: { places_below layer ≡ size_below (layers_seen rest) (inputs_below rest) },
    ghost limit_size: { copies_above rest + size_seen layer ≤ 16 },
    ghost limit_below: { copies_above rest + places_below layer ≤ 16 },
    ghost inputs_whole: { length inputs.now ≡ 2 ^ (copies_above rest + inputs_below rest) },
    ghost inputs_reduced: { EachBelow modulus inputs.now },
    ghost copy_reduced: { all_reduced (modulo modulus) copy ≡ true },
    ghost within: { length (coins_drawn drawn) ≤ copies_above rest + 2 * places_below layer },
}
