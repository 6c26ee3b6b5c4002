// Where a part of a layer begins, its tables are made, in four quarters that are lent; elsewhere they are left as they are.
// A part with no variables ends where it begins, so that the next one begins at once.
ghost use Rattle.std.specs.Prelude.{◌≡◌, [], length};
ghost use Rattle.phases.specs.Standing.{Rooms};
ghost use Rattle.prover.specs.Provers.{StandsIn, history, WithFactor, WithValue};

use crate::prover::HonestProver;

pub fn settle_left<'a>(
    mut prover: HonestProver<'a>,
    v: &[u32],
    w: &mut [u32],
    h: &mut [u32],
    j: &mut [u32],
) -> HonestProver<'a>
    requires { StandsIn 1 1 prover v.now w.old h.old j.old }
    ensures same { WithFactor prover.entry result }
    ensures stands { StandsIn 0 1 result v.now w.new h.new j.new }
{
    prover.settle_left(v, w, h, j);
    prover
}

pub fn settle_right<'a>(
    mut prover: HonestProver<'a>,
    v: &mut [u32],
    w: &mut [u32],
    h: &mut [u32],
    j: &mut [u32],
) -> HonestProver<'a>
    requires { StandsIn 0 1 prover v.old w.old h.old j.old }
    ensures same { WithValue prover.entry result }
    ensures stands { StandsIn 0 0 result v.new w.new h.new j.new }
{
    prover.settle_right(v, w, h, j);
    prover
}

// The tables of the copies' variables, for a prover that has no coin of this layer yet.
pub fn start(prover: HonestProver, v: &mut [u32], w: &mut [u32], h: &mut [u32], j: &[u32])
    requires none { history prover ≡ [] }
    requires rooms { (Rooms v.old w.old h.old) × (length j.now ≡ 65536) }
    ensures { StandsIn 1 1 prover.entry v.new w.new h.new j.now }
{
    prover.start(v, w, h, j);
}
