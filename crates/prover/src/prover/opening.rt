// The prover at the first of some layers, of which no coin is drawn yet.
// At the outputs' layer it is made with its tables, and so stands at its first answer.
ghost use Rattle.std.specs.Prelude.{◌≡◌, ◌+◌, ◌^◌, ◌<◌, ◌≤◌, true, [], ◌∷◌, length};
ghost use Rattle.arithmetic.specs.Numbers.{modulo, all_reduced};
ghost use Rattle.argument.specs.Argument.{first_coins};
ghost use Rattle.circuits.specs.Values.{EachBelow};
ghost use Rattle.circuits.specs.Views.{circuit_seen, layers_seen, copies_above, inputs_below};
ghost use Rattle.circuits.specs.Words.{modulus};
ghost use Rattle.phases.specs.References.{SameReferences};
ghost use Rattle.prover.specs.Provers.{Begins, Opened, Stands};

use super::HonestProver;
use crate::opening::open;
use circuits::{CircuitView, LayersView};
use claims::claim::Shares;
use claims::cut::MOST_COORDINATES;
use claims::drawn::Drawn;
use phases::quarters::Tables;

impl<'a> HonestProver<'a> {
    // At the first of these layers, of which no coin is drawn yet.
    pub(crate) fn at(
        layers: LayersView<'a>,
        inputs: &'a [u32],
        copy: [u32; MOST_COORDINATES],
        shares: Shares,
    ) -> HonestProver<'a>
        requires some { 0 < length (layers_seen layers) }
        requires inputs { (length inputs.now ≡ 2 ^ (copies_above layers + inputs_below layers)) × (EachBelow modulus inputs.now) }
        requires copy { all_reduced (modulo modulus) copy ≡ true }
        ensures { Begins layers.entry inputs.now copy shares result }
    {
        HonestProver {
            layer: layers.first(),
            rest: layers.rest(),
            inputs,
            copy,
            shares,
            drawn: Drawn::new(),
            factor: 0,
            at_x: 0,
        }
    }

    // In four tables that are lent, at its first answer.
    pub fn open(
        circuit: CircuitView<'a>,
        inputs: &'a [u32],
        coins: &[u32],
        tables: &mut Tables,
    ) -> HonestProver<'a>
        requires inputs { (length inputs.now ≡ 2 ^ ((circuit_seen circuit).copies + (circuit_seen circuit).inputs)) × (EachBelow modulus inputs.now) }
        requires coins { (first_coins (circuit_seen circuit) ≤ length coins.now) × (all_reduced (modulo modulus) coins.now ≡ true) }
        ensures opened { Opened (circuit_seen circuit.entry) inputs.now coins.now result }
        ensures stands { Stands 0 0 result tables.new }
        ensures same_references { SameReferences tables.old tables.new }
    {
        let mut prover = open(circuit, inputs, coins);
        prover.begin(tables.v, tables.w, tables.h, tables.j);
        prover
    }
}
